// Numbers in their ranges.
ghost use Rattle.std.specs.Prelude.{◌≡◌, ◌<◌, true, false, IfSome, IfNone};
ghost use Rattle.input_lines.specs.Numbers.{in_range};
ghost use Rattle.mux_model.specs.Sound.{Between};

/// Whether a number is in a range.
pub(crate) fn is_in(low: u32, high: u32, n: u32) -> bool
    ensures value { result ≡ in_range low high n }
    ensures bounds { result ≡ true → Between low high n }
{
    low <= n && n <= high
}

/// A number of a range of 16 bits.
pub(crate) fn short(low: u32, high: u32, n: u32) -> Option<u16>
    requires { high < 65536 }
    ensures some { IfSome result (λ m. (in_range low high n ≡ true) × (m ≡ n)) }
    ensures none { IfNone result (in_range low high n ≡ false) }
{
    if is_in(low, high, n) {
        Some(n as u16)
    } else {
        None
    }
}

/// A number of a range of 8 bits.
pub(crate) fn byte(low: u32, high: u32, n: u32) -> Option<u8>
    requires { high < 256 }
    ensures some { IfSome result (λ m. (in_range low high n ≡ true) × (m ≡ n)) }
    ensures none { IfNone result (in_range low high n ≡ false) }
{
    if is_in(low, high, n) {
        Some(n as u8)
    } else {
        None
    }
}
