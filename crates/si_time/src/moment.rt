// Moments.
ghost use Rattle.std.specs.Prelude.{◌≡◌, ◌+◌, ◌*◌, ◌/◌, ◌%◌, ◌<◌, ◌≤◌, ◌↔◌, ℕ, IfSome, IsSome, Some, option_map, take};
ghost use Rattle.si_time.specs.Dates.{IsOnlyDateOf, annex_c};
ghost use Rattle.si_time.specs.Moments.{civil_date, moment_text, moment_bcd};
ghost use Rattle.si_time.specs.Readings.{moment_in, day_in, moment_from_bcd, IsMomentText, IsDayText};

use crate::dates::{DAY, date_of};
use crate::digits::{clock_bcd, two_digits};
use crate::readings::{day_in, moment_from_bcd, moment_in};

/// A moment in UTC: the seconds since Modified Julian Date 0, 1858-11-17T00:00:00Z, below 65,536 × 86,400
/// (EN 300 468, annex C).
#[derive(Clone, Copy, PartialEq, Eq)]
pub struct Moment(pub u64);

/// The 40 bits of a start_time or UTC_time: 16 bits of Modified Julian Date and six BCD digits hhmmss
/// (EN 300 468, 5.2.4 and 5.2.5). It takes no memory.
#[tactic(auto, unfolding(crate::specs::Moments::moment_bcd))]
pub fn to_bcd(at: Moment) -> [u8; 5]
    requires { at.0 < 65536 * 86400 }
    ensures { result ≡ moment_bcd at.0 }
{
    let [high, low] = ((at.0 / DAY) as u16).to_be_bytes();
    let [h, m, s] = clock_bcd((at.0 % DAY) as u32);
    [high, low, h, m, s]
}

/// The moment of 40 bits as `to_bcd` gives them. None where a digit exceeds 9, hours 23, minutes 59 or seconds 59.
/// It takes no memory.
pub fn from_bcd(bytes: [u8; 5]) -> Option<Moment>
    ensures value { option_map (λ at. at.0) result ≡ moment_from_bcd bytes }
    ensures window { IfSome result (λ at. at.0 < 65536 * 86400) }
    ensures written { IfSome result (λ at. bytes ≡ moment_bcd at.0) }
    ensures back { (s : ℕ) → s < 65536 * 86400 → bytes ≡ moment_bcd s
        → option_map (λ at. at.0) result ≡ Some s }
{
    moment_from_bcd(bytes).map(Moment)
}

/// The moment of a text `YYYY-MM-DDThh:mm:ssZ` in the proleptic Gregorian calendar. None where the bytes have another
/// shape, the date or the time of day does not exist (second 60 included), or the moment is none of
/// 1858-11-17T00:00:00Z to 2038-04-22T23:59:59Z. It takes no memory.
pub fn read_moment(text: &[u8]) -> Option<Moment>
    ensures value { option_map (λ at. at.0) result ≡ moment_in text.now }
    ensures some { IsSome result ↔ IsMomentText text.now }
    ensures window { IfSome result (λ at. at.0 < 65536 * 86400) }
    ensures written { IfSome result (λ at. text.now ≡ moment_text at.0) }
    ensures back { (s : ℕ) → s < 65536 * 86400 → text.now ≡ moment_text s
        → option_map (λ at. at.0) result ≡ Some s }
{
    moment_in(text).map(Moment)
}

/// The text `YYYY-MM-DDThh:mm:ssZ` of a moment, in the proleptic Gregorian calendar. It takes no memory.
pub fn write_moment(at: Moment) -> [u8; 20]
    requires { at.0 < 65536 * 86400 }
    ensures text { result ≡ moment_text at.0 }
    ensures date { IsOnlyDateOf (at.0 / 86400) (civil_date (at.0 / 86400)) }
    // From 1 March 1900 on the standard's own formula gives the day number too.
    ensures annex_c { 15079 ≤ at.0 / 86400 → annex_c (civil_date (at.0 / 86400)) ≡ at.0 / 86400 }
{
    let (year, month, day) = date_of((at.0 / DAY) as u16);
    let second = (at.0 % DAY) as u32;
    let [y1, y2] = two_digits((year / 100) as u8);
    let [y3, y4] = two_digits((year % 100) as u8);
    let [m1, m2] = two_digits(month);
    let [d1, d2] = two_digits(day);
    let [h1, h2] = two_digits((second / 3600) as u8);
    let [i1, i2] = two_digits((second / 60 % 60) as u8);
    let [s1, s2] = two_digits((second % 60) as u8);
    [
        y1, y2, y3, y4, b'-', m1, m2, b'-', d1, d2, b'T', h1, h2, b':', i1, i2, b':', s1, s2, b'Z',
    ]
}

/// The midnight that begins the day of a text `YYYY-MM-DD`. None where the bytes have another shape, the date does not
/// exist, or it is none of 1858-11-17 to 2038-04-22. It takes no memory.
pub fn read_day(text: &[u8]) -> Option<Moment>
    ensures value { option_map (λ at. at.0) result ≡ day_in text.now }
    ensures some { IsSome result ↔ IsDayText text.now }
    ensures window { IfSome result (λ at. at.0 < 65536 * 86400) }
    ensures midnight { IfSome result (λ at. at.0 % 86400 ≡ 0) }
    ensures written { IfSome result (λ at. text.now ≡ take 10 (moment_text at.0)) }
    ensures back { (s : ℕ) → s < 65536 * 86400 → text.now ≡ take 10 (moment_text s)
        → option_map (λ at. at.0) result ≡ Some (s / 86400 * 86400) }
{
    day_in(text).map(Moment)
}

/// The three-hour block that a moment lies in, counted from Modified Julian Date 0. It takes no memory.
pub fn block_of(at: Moment) -> u64
    ensures { result ≡ at.0 / 10800 }
{
    at.0 / 10_800
}

/// The start of a moment's day. It takes no memory.
pub fn midnight(at: Moment) -> Moment
    ensures { result.0 ≡ at.0 / 86400 * 86400 }
{
    Moment(at.0 / DAY * DAY)
}
