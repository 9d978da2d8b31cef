// Durations.
ghost use Rattle.std.specs.Prelude.{◌≡◌, ◌<◌, ℕ, IfSome, Some};
ghost use Rattle.si_time.specs.Moments.{duration_text, duration_bcd};
ghost use Rattle.si_time.specs.Readings.{duration_in, duration_from_bcd};

use crate::digits::{clock_bcd, two_digits};
use crate::readings::{self, duration_in};

/// The 24 bits of a duration below 100 hours: six BCD digits hhmmss (EN 300 468, 5.2.4). It takes no memory.
#[tactic(auto, unfolding(crate::specs::Moments::duration_bcd))]
pub fn duration_bcd(seconds: u32) -> [u8; 3]
    requires { seconds < 360000 }
    ensures { result ≡ duration_bcd seconds }
{
    clock_bcd(seconds)
}

/// The seconds of 24 bits as `duration_bcd` gives them. None where a digit exceeds 9, minutes 59 or seconds 59.
/// It takes no memory.
pub fn duration_from_bcd(bytes: [u8; 3]) -> Option<u32>
    ensures value { result ≡ duration_from_bcd bytes }
    ensures bound { IfSome result (λ t. t < 360000) }
    ensures written { IfSome result (λ t. bytes ≡ duration_bcd t) }
    ensures back { (t : ℕ) → t < 360000 → bytes ≡ duration_bcd t → result ≡ Some t }
{
    readings::duration_from_bcd(bytes)
}

/// The seconds of a text `hh:mm:ss` with hours 00 to 99. None where the bytes have another shape, or minutes or seconds
/// exceed 59. It takes no memory.
pub fn read_duration(text: &[u8]) -> Option<u32>
    ensures value { result ≡ duration_in text.now }
    ensures bound { IfSome result (λ t. t < 360000) }
    ensures written { IfSome result (λ t. text.now ≡ duration_text t) }
    ensures back { (t : ℕ) → t < 360000 → text.now ≡ duration_text t → result ≡ Some t }
{
    duration_in(text)
}

/// The text `hh:mm:ss` of a duration below 100 hours. It takes no memory.
#[tactic(auto, unfolding(crate::specs::Moments::duration_text))]
pub fn write_duration(seconds: u32) -> [u8; 8]
    requires { seconds < 360000 }
    ensures { result ≡ duration_text seconds }
{
    let [h1, h2] = two_digits((seconds / 3600) as u8);
    let [m1, m2] = two_digits((seconds / 60 % 60) as u8);
    let [s1, s2] = two_digits((seconds % 60) as u8);
    [h1, h2, b':', m1, m2, b':', s1, s2]
}
