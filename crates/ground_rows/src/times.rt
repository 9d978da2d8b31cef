// Moments, days and durations, as texts and in BCD.
ghost use Rattle.std.specs.Prelude.{◌<◌, ◌*◌};

use crate::notation::{number_below, put_hex, put_number_or_none};
use row_lines::{Row, say, text_of};
use si_time::{
    Moment, block_of, duration_bcd, duration_from_bcd, from_bcd, midnight, read_day, read_duration,
    read_moment, to_bcd, write_duration, write_moment,
};
use std::fmt::Write;

fn moment(row: &mut Row) -> Moment
    ensures { result.0 < 65536 * 86400 }
{
    Moment(number_below(row, 65_536 * 86_400))
}

fn duration(row: &mut Row) -> u32
    ensures { result < 360000 }
{
    number_below(row, 360_000) as u32
}

/// What a call on a number of seconds gives.
pub fn put_of_number(row: &mut Row, call: &str) {
    match call {
        "write_moment" => {
            let text = write_moment(moment(row));
            say!(row; " {}", text_of(&text));
        }
        "write_duration" => {
            let text = write_duration(duration(row));
            say!(row; " {}", text_of(&text));
        }
        "to_bcd" => {
            let at = moment(row);
            put_hex(row, &to_bcd(at));
        }
        "duration_bcd" => {
            let seconds = duration(row);
            put_hex(row, &duration_bcd(seconds));
        }
        "midnight" => {
            let at = midnight(moment(row));
            say!(row; " {}", at.0);
        }
        _ => {
            let block = block_of(moment(row));
            say!(row; " {block}");
        }
    }
}

/// The number of seconds that a call gives for bytes, or none.
pub fn put_seconds(row: &mut Row, call: &str, bytes: &[u8]) {
    let seconds = match (call, bytes) {
        ("read_moment", _) => read_moment(bytes).map(|at| at.0),
        ("read_day", _) => read_day(bytes).map(|at| at.0),
        ("read_duration", _) => read_duration(bytes).map(u64::from),
        ("from_bcd", [high, low, h, m, s]) => { from_bcd([*high, *low, *h, *m, *s]).map(|at| at.0) }
        ("duration_from_bcd", [h, m, s]) => duration_from_bcd([*h, *m, *s]).map(u64::from),
        _ => return row.refuse(),
    };
    put_number_or_none(row, seconds);
}
