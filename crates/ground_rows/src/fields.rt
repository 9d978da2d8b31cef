// Fields of lines, and numbers and words in them.
use crate::notation::{number_below, put_number_or_none, put_written, text};
use input_lines::{LineFields, fields, is_word, number, numeral};
use row_lines::{Row, put_read, say};
use std::fmt::Write;

/// The fields of a line.
pub fn put_fields(row: &mut Row, line: &[u8]) {
    let fields = fields(row.alloc(), line);
    put_read(row, fields, " none", put_all);
}

fn put_all(row: &mut Row, fields: &LineFields) {
    let mut between = "";
    for field in fields.as_slice() {
        row.put(between);
        put_field(row, field.as_str());
        between = " |";
    }
    if between.is_empty() {
        row.put(" no field");
    }
}

// A field, or how many bytes it has where these are more than 100.
fn put_field(row: &mut Row, field: &str) {
    if field.len() > 100 {
        return say!(row; " {} bytes", field.len());
    }
    put_written(row, field.as_bytes());
}

/// The number that a text spells.
pub fn put_numeral(row: &mut Row, text: &str) {
    put_number_or_none(row, numeral(text).map(u64::from));
}

/// The number in a range that a field spells: of the range and the field.
pub fn put_number(row: &mut Row) {
    let low = number_below(row, 1 << 32) as u32;
    let high = number_below(row, 1 << 32) as u32;
    let bytes = row.rest_bytes();
    let text = text(row, &bytes);
    put_number_or_none(row, number(text, low, high).map(u64::from));
}

/// Whether a field is a word: of the word and the field.
pub fn put_is_word(row: &mut Row) {
    let wanted = row.word();
    let bytes = row.rest_bytes();
    let text = text(row, &bytes);
    row.put(if is_word(text, wanted) { " yes" } else { " no" });
}
