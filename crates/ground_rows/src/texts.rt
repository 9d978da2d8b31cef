// Texts, their coded forms, and the pieces of long ones.
use crate::fields::put_numeral;
use crate::notation::{append, put_written};
use guide_model::{
    Shown, Txt, append_text, coded_len, cut_len, decode_text, encode_text, is_plain_byte,
};
use row_lines::{Row, put_read};
use si_base::Copies;

/// What a call gives for a text.
pub fn answer(row: &mut Row, call: &str, text: &str) {
    match call {
        "numeral" => put_numeral(row, text),
        "kept_text" => put_kept(row, text),
        "encode_text" => put_encoded(row, text),
        "append_text" => put_appended(row, text),
        "coded_len" => row.put_number(" ", coded_len(text) as u64),
        "cut_len" => row.put_number(" ", cut_len(text) as u64),
        "pieces" => put_pieces(row, text),
        _ => row.refuse(),
    }
}

fn put_kept(row: &mut Row, text: &str) {
    let text = Txt::of(row.alloc(), text);
    put_read(row, text, " none", put_copy);
}

fn put_copy(row: &mut Row, text: &Txt) {
    if let Some(copy) = row.made(text.copy()) {
        put_written(row, copy.as_str().as_bytes());
    }
}

fn put_encoded(row: &mut Row, text: &str) {
    let coded = encode_text(row.alloc(), text);
    if let Some(coded) = row.made(coded) {
        put_written(row, coded.as_slice());
    }
}

/// The bytes of the plain set, from the lowest on.
pub fn put_plain_bytes(row: &mut Row) {
    let mut plain = Vec::new(row.alloc());
    for b in 0..=255u8 {
        if is_plain_byte(b) {
            append(row, &mut plain, &[b]);
        }
    }
    put_written(row, &plain);
}

// What a text is appended as, behind `<`.
fn put_appended(row: &mut Row, text: &str) {
    let mut out = Vec::new(row.alloc());
    append(row, &mut out, b"<");
    row.need(append_text(text, &mut out).is_ok());
    put_written(row, &out);
}

/// The text that bytes are decoded to, or with a call `write_shown` how many bytes its copy has, and what it is appended as, behind `<`.
pub fn put_decoded(row: &mut Row, call: &str, bytes: &[u8]) {
    let shown = decode_text(row.alloc(), bytes);
    match row.made(shown) {
        Some(shown) if call == "write_shown" => put_copy_shown(row, &shown),
        Some(Shown::Text(text)) => {
            row.put(" text");
            put_written(row, text.as_str().as_bytes());
        }
        Some(Shown::Hex(bytes)) => {
            row.put(" hex");
            put_written(row, bytes.as_slice());
        }
        None => {}
    }
}

fn put_copy_shown(row: &mut Row, shown: &Shown) {
    let Some(copy) = row.made(shown.copy()) else {
        return;
    };
    let mut out = Vec::new(row.alloc());
    append(row, &mut out, b"<");
    row.need(copy.append_to(&mut out).is_ok());
    row.put_number(" ", copy.coded_len() as u64);
    put_written(row, &out);
}

// How long the pieces of a text are.
fn put_pieces(row: &mut Row, text: &str) {
    if text.is_empty() {
        return row.put(" none");
    }
    let mut rest = text;
    for _ in 0..text.len() {
        if rest.is_empty() {
            break;
        }
        let cut = cut_len(rest);
        row.put_number(" ", cut as u64);
        rest = rest.split_at(cut).1;
    }
}
