// Digits of texts and of BCD, and times on a clock.
ghost use Rattle.std.specs.Prelude.{◌≡◌, ◌+◌, ◌<◌, ◌≤◌, length, if◌then◌else◌};
ghost use Rattle.std.specs.Bool.{OnTrue};
ghost use Rattle.si_time.specs.Moments.{two_digits, bcd, clock_bcd};
ghost use Rattle.si_time.specs.Readings.{has_shape, number_at, is_bcd, bcd_value, seconds_of, clock_from_bcd};

/// The two digits of a number below 100.
pub fn two_digits(number: u8) -> [u8; 2]
    requires { number < 100 }
    ensures { result ≡ two_digits number }
{
    [b'0' + number / 10, b'0' + number % 10]
}

/// Whether a text has a shape, in which `d` stands for any digit and any other byte for itself. It takes no memory.
pub fn has_shape(shape: &[u8], text: &[u8]) -> bool
    ensures value { result ≡ has_shape shape.now text.now }
    ensures long { OnTrue result (length text.now ≡ length shape.now) }
{
    if shape.len() != text.len() {
        return false;
    }
    for (s, byte) in shape.iter().zip(text) {
        let fits = if *s == b'd' {
            byte.is_ascii_digit()
        } else {
            byte == s
        };
        if !fits {
            return false;
        }
    }
    true
}

/// The number of the two digits at a place of a text.
pub fn number_at(at: usize, text: &[u8]) -> u32
    requires { at + 2 ≤ length text.now }
    ensures value { result ≡ number_at at text.now }
    ensures bound { result < 2300 }
{
    let ten = u32::from(text[at].saturating_sub(b'0'));
    let one = u32::from(text[at + 1].saturating_sub(b'0'));
    ten * 10 + one
}

/// The two BCD digits of a number below 100.
pub fn bcd(number: u8) -> u8
    requires { number < 100 }
    ensures { result ≡ bcd number }
{
    number / 10 * 16 + number % 10
}

/// The number of a byte of two BCD digits. None where one of them is above 9.
pub fn bcd_value(byte: u8) -> Option<u32>
    ensures { result ≡ (if is_bcd byte then Some (bcd_value byte) else None) }
{
    let (ten, one) = (byte / 16, byte % 16);
    (ten <= 9 && one <= 9).then_some(u32::from(ten) * 10 + u32::from(one))
}

/// The seconds of a time on a clock with so many hours. None where it shows no such time.
pub fn seconds_of(limit: u32, hours: u32, minutes: u32, seconds: u32) -> Option<u32>
    requires { limit ≤ 100 }
    ensures { result ≡ seconds_of limit hours minutes seconds }
{
    if hours >= limit || minutes >= 60 || seconds >= 60 {
        return None;
    }
    Some(hours * 3600 + minutes * 60 + seconds)
}

/// The BCD digits hhmmss of a number of seconds below 100 hours.
pub fn clock_bcd(seconds: u32) -> [u8; 3]
    requires { seconds < 360000 }
    ensures { result ≡ clock_bcd seconds }
{
    [
        bcd((seconds / 3600) as u8),
        bcd((seconds / 60 % 60) as u8),
        bcd((seconds % 60) as u8),
    ]
}

/// The time of BCD digits hhmmss on a clock with so many hours. None where a digit is above 9, or there is no such time.
pub fn clock_from_bcd(limit: u32, h: u8, m: u8, s: u8) -> Option<u32>
    requires { limit ≤ 100 }
    ensures { result ≡ clock_from_bcd limit h m s }
{
    seconds_of(limit, bcd_value(h)?, bcd_value(m)?, bcd_value(s)?)
}
