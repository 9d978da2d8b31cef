// Words and numbers in fields.
ghost use Rattle.std.specs.Prelude.{◌≡◌, ◌≤◌, ◌&&◌, true, length, IfSome, nat_le};
ghost use Rattle.std.specs.List.{list_all};
ghost use Rattle.input_lines.specs.Numbers.{is_digit, is_numeral, is_word as is_this_word, number_in, numeral_of, value_from};

/// Whether a field is this word. It takes no memory.
pub fn is_word(field: &str, word: &str) -> bool
    ensures { result ≡ is_this_word word.now field.now }
{
    field == word
}

fn all_digits(bytes: &[u8]) -> bool
    ensures { result ≡ list_all is_digit bytes.now }
{
    bytes.iter().all(|b| b'0' <= *b && *b <= b'9')
}

fn is_spelled(bytes: &[u8]) -> bool
    ensures { result ≡ is_numeral bytes.now }
{
    all_digits(bytes) && (1 <= bytes.len() && bytes.len() <= 9)
}

fn value(field: &str) -> u32
    requires { is_numeral field.now ≡ true }
    ensures { result ≡ value_from 0 field.now }
{
    field.parse::<u32>().unwrap()
}

/// The number that a field spells: one to nine decimal digits, leading zeros taken. It takes no memory.
pub fn numeral(field: &str) -> Option<u32>
    ensures { result ≡ numeral_of field.now }
{
    if !is_spelled(field.as_bytes()) {
        return None;
    }
    Some(value(field))
}

/// The number that a field spells, where it lies in the range. It takes no memory.
pub fn number(field: &str, low: u32, high: u32) -> Option<u32>
    ensures value { result ≡ number_in low high field.now }
    ensures within { IfSome result (λ n. (low ≤ n) × (n ≤ high)) }
{
    let n = numeral(field)?;
    if low <= n && n <= high { Some(n) } else { None }
}
