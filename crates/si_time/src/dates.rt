// Civil dates and their day numbers.
ghost use Rattle.std.specs.Prelude.{◌≡◌, ◌<◌, ◌≤◌, IfSome, IfNone};
ghost use Rattle.si_time.specs.Dates.{IsCodedDate, IsDateOf};
ghost use Rattle.si_time.specs.Moments.{civil_date};

use jiff::civil::Date;

/// The seconds of a day.
pub const DAY: u64 = 86_400;

/// The days from the calendar's first date, -9999-01-01, to Modified Julian Date 0, 1858-11-17.
const FIRST: u32 = 4_331_000;

/// The year, the month and the day of the month of a Modified Julian Date.
pub fn date_of(day: u16) -> (u16, u8, u8)
    ensures value { result ≡ civil_date day }
    ensures year { result.0 < 10000 }
    ensures month { result.1 ≤ 12 }
    ensures day { result.2 ≤ 31 }
{
    let date = jiff_core::civil::Date::from_days_since_min(day as u32 + FIRST);
    (date.year.unsigned_abs(), date.month, date.day)
}

/// The Modified Julian Date of a date. None where the calendar lacks the date, or 16 bits the number.
#[tactic(auto, using(jiff_core::proofs::SignedLemmas::signed_arith))]
pub fn day_number(year: u32, month: u32, day: u32) -> Option<u16>
    ensures number { IfSome result (λ n. IsDateOf n (year, month, day)) }
    ensures none { IfNone result (¬ (IsCodedDate year month day)) }
{
    if year > 9999 || month > 12 || day > 31 {
        return None;
    }
    let Ok(date) = Date::new(year as i16, month as i8, day as i8) else {
        return None;
    };
    let days = date.to_plain().days_since_min();
    if days < FIRST || days - FIRST > 65_535 {
        return None;
    }
    Some((days - FIRST) as u16)
}
