// Texts and BCD read as seconds.
ghost use Rattle.std.specs.Prelude.{◌≡◌, ◌<◌, ◌≤◌, length, slice_index};
ghost use Rattle.si_time.specs.Readings.{moment_in, day_in, duration_in, date_at_front, moment_from_bcd, duration_from_bcd};

use crate::dates::{DAY, day_number};
use crate::digits::{clock_from_bcd, has_shape, number_at, seconds_of};

/// The seconds of a text `YYYY-MM-DDThh:mm:ssZ`. None where it is no moment.
#[tactic(auto, unfolding(crate::specs::Readings::moment_in))]
pub fn moment_in(text: &[u8]) -> Option<u64>
    ensures { result ≡ moment_in text.now }
{
    if !has_shape(b"dddd-dd-ddTdd:dd:ddZ", text) {
        return None;
    }
    let day = date_at_front(text)?;
    let second = seconds_of(
        24,
        number_at(11, text),
        number_at(14, text),
        number_at(17, text),
    )?;
    Some(u64::from(day) * DAY + u64::from(second))
}

/// The seconds of the midnight that begins the day of a text `YYYY-MM-DD`. None where it is no day.
#[tactic(auto, unfolding(crate::specs::Readings::day_in))]
pub fn day_in(text: &[u8]) -> Option<u64>
    ensures { result ≡ day_in text.now }
{
    if !has_shape(b"dddd-dd-dd", text) {
        return None;
    }
    Some(u64::from(date_at_front(text)?) * DAY)
}

/// The seconds of a text `hh:mm:ss`. None where it is no duration.
#[tactic(auto, unfolding(crate::specs::Readings::duration_in))]
pub fn duration_in(text: &[u8]) -> Option<u32>
    ensures { result ≡ duration_in text.now }
{
    if !has_shape(b"dd:dd:dd", text) {
        return None;
    }
    seconds_of(
        100,
        number_at(0, text),
        number_at(3, text),
        number_at(6, text),
    )
}

/// The seconds of 40 bits. None where they are no moment.
#[tactic(auto, unfolding(crate::specs::Readings::moment_from_bcd))]
pub fn moment_from_bcd(bytes: [u8; 5]) -> Option<u64>
    ensures value { result ≡ moment_from_bcd bytes }
    ensures high { slice_index bytes 0 < 256 }
    ensures low { slice_index bytes 1 < 256 }
{
    let [high, low, h, m, s] = bytes;
    let day = u16::from_be_bytes([high, low]);
    let second = clock_from_bcd(24, h, m, s)?;
    Some(u64::from(day) * DAY + u64::from(second))
}

/// The seconds of 24 bits. None where they are no duration.
#[tactic(auto, unfolding(crate::specs::Readings::duration_from_bcd))]
pub fn duration_from_bcd(bytes: [u8; 3]) -> Option<u32>
    ensures { result ≡ duration_from_bcd bytes }
{
    let [h, m, s] = bytes;
    clock_from_bcd(100, h, m, s)
}

/// The Modified Julian Date of the date at the front of a text.
fn date_at_front(text: &[u8]) -> Option<u16>
    requires { 10 ≤ length text.now }
    ensures { result ≡ date_at_front text.now }
{
    let year = number_at(0, text) * 100 + number_at(2, text);
    day_number(year, number_at(5, text), number_at(8, text))
}
