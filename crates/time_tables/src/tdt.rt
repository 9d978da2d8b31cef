// The time and date table.
ghost use Rattle.std.specs.Prelude.{◌≡◌, ◌*◌, ◌<◌, IfSome, option_map};
ghost use Rattle.si_time.specs.Moments.{moment_bcd};
ghost use Rattle.time_tables.specs.Tdt.{tdt_in, tdt_section};

use si_time::{Moment, from_bcd, to_bcd};

/// The section of the time and date table: table_id 0x70 in the short form, which has no CRC, and UTC_time (EN 300 468, 5.2.5). It
/// needs a moment within the window of a Modified Julian Date of 16 bits. It takes no memory.
#[tactic(auto, unfolding(si_time::specs::Moments::moment_bcd))]
pub fn write_tdt(at: Moment) -> [u8; 8]
    requires { at.0 < 65536 * 86400 }
    ensures { result ≡ tdt_section at.0 }
{
    let [high, low, h, m, s] = to_bcd(at);
    [0x70, 0x70, 0x05, high, low, h, m, s]
}

/// The moment of the body of a section of the time and date table, or `None` exactly where it has not 5 bytes, a digit exceeds 9,
/// hours 23, minutes 59 or seconds 59. It takes no memory (EN 300 468, 5.2.5).
pub fn read_tdt(body: &[u8]) -> Option<Moment>
    ensures value { option_map (λ at. at.0) result ≡ tdt_in body.now }
    ensures window { IfSome result (λ at. at.0 < 65536 * 86400) }
    ensures written { IfSome result (λ at. body.now ≡ moment_bcd at.0) }
{
    let [high, low, h, m, s] = body else {
        return None;
    };
    from_bcd([*high, *low, *h, *m, *s])
}
