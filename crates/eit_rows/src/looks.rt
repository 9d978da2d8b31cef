// Bodies of tables that are looked at and not read, and the time and date table.
use row_lines::{Row, say, text_of};
use si_time::{read_moment, write_moment};
use std::fmt::Write;
use table_bodies::{is_nit_body, is_pat_body, is_pmt_body, is_sdt_body};
use time_tables::{read_tdt, write_tdt};

// Whether these bytes are a body of the table of this call; none where no table has it.
fn is_body(call: &str, bytes: &[u8]) -> Option<bool> {
    match call {
        "is_pat_body" => Some(is_pat_body(bytes)),
        "is_pmt_body" => Some(is_pmt_body(bytes)),
        "is_nit_body" => Some(is_nit_body(bytes)),
        "is_sdt_body" => Some(is_sdt_body(bytes)),
        _ => None,
    }
}

/// `is_pat_body BYTES`, and so of the other tables.
pub fn look(row: &mut Row, call: &str, bytes: &[u8]) {
    if let Some(is_body) = row.read(is_body(call, bytes)) {
        row.put(if is_body { " yes" } else { " no" });
    }
}

/// `fronts CALL BYTES`: the lengths of the fronts of these bytes, and of all, that are a body.
pub fn fronts(row: &mut Row) {
    let call = row.word();
    let bytes = row.bytes();
    for len in 0..=bytes.len() {
        let (front, _) = bytes.split_at(len);
        if row.read(is_body(call, front)) == Some(true) {
            say!(row; " {len}");
        }
    }
    row.put(";");
}

/// `write_tdt MOMENT`.
pub fn write_time(row: &mut Row) {
    match read_moment(row.word().as_bytes()) {
        Some(at) => row.put_bytes(&write_tdt(at)),
        None => row.refuse(),
    }
}

/// `read_tdt BYTES`.
pub fn read_time(row: &mut Row, body: &[u8]) {
    match read_tdt(body) {
        Some(at) => say!(row; " {}", text_of(&write_moment(at))),
        None => row.put(" none"),
    }
}
