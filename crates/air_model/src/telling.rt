// Sections that tell the time, written over with another moment.
ghost use Rattle.std.specs.Prelude.{◌≡◌, ◌*◌, ◌<◌, ◌≤◌, ◌++◌, length, take, drop};
ghost use Rattle.si_time.specs.Moments.{moment_bcd};
ghost use Rattle.air_model.specs.Telling.{is_tdt, is_tot, tot_retold, retold};

use si_base::crc32;
use si_time::{Moment, to_bcd};
use time_tables::write_tdt;

/// Writes UTC_time over that of a TDT or a TOT, and the CRC of a TOT. Any other section stays.
pub(crate) fn tell_section(section: &mut [u8], moment: Moment)
    requires { moment.0 < 65536 * 86400 }
    ensures { section.new ≡ retold moment.0 section.old }
{
    if is_tdt(section) {
        section.copy_from_slice(&write_tdt(moment));
    } else if is_tot(section) {
        tell_tot(section, moment);
    }
}

fn is_tdt(section: &[u8]) -> bool
    ensures { result ≡ is_tdt section.now }
{
    section.len() == 8 && section[0] == 0x70
}

fn is_tot(section: &[u8]) -> bool
    ensures { result ≡ is_tot section.now }
{
    section.len() >= 14 && section[0] == 0x73
}

fn tell_tot(section: &mut [u8], moment: Moment)
    requires size { 14 ≤ length section.old }
    requires moment { moment.0 < 65536 * 86400 }
    ensures { section.new ≡ tot_retold moment.0 section.old }
{
    let size = section.len() - 4;
    let (front, kept) = section.split_at_mut(size);
    put_time(front, moment);
    kept.copy_from_slice(&crc32(front).to_be_bytes());
}

// Writes UTC_time after the three bytes of a header.
fn put_time(front: &mut [u8], moment: Moment)
    requires size { 8 ≤ length front.old }
    requires moment { moment.0 < 65536 * 86400 }
    ensures { front.new ≡ take 3 front.old ++ (moment_bcd moment.0 ++ drop 8 front.old) }
{
    let (_, behind) = front.split_at_mut(3);
    let (time, _) = behind.split_at_mut(5);
    time.copy_from_slice(&to_bcd(moment));
}
