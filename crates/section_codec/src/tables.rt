// The table of tables: what is known of a table by its table_id and PID.
ghost use Rattle.std.specs.Prelude.{◌≡◌};
ghost use Rattle.section_codec.specs.Tables.{is_eit, has_long_form, has_short_form, naming_of, is_counted, tier_of};

use crate::table::{Naming, Tier3};

/// Whether a table has event information, of this multiplex or of others, present and following or a schedule
/// (EN 300 468, 5.2.4).
pub fn is_eit(table: u8) -> bool
    ensures { result ≡ is_eit table }
{
    0x4E <= table && table <= 0x6F
}

/// Whether the sections of this table have the long form, with a version and a CRC: those of PAT, PMT, NIT, SDT
/// and EIT (ISO/IEC 13818-1, 2.4.4; EN 300 468, 5.1.1).
pub fn has_long_form(table: u8) -> bool
    ensures { result ≡ has_long_form table }
{
    matches!(table, 0x00 | 0x02 | 0x40 | 0x42 | 0x46 | 0x4E..=0x6F)
}

/// Whether the sections of this table have the short form: those of TDT and TOT (EN 300 468, 5.2.5 and 5.2.6).
pub fn has_short_form(table: u8) -> bool
    ensures { result ≡ has_short_form table }
{
    table == 0x70 || table == 0x73
}

/// What names the sub-tables of a table that is heard on this PID, or None where the table is not heard there
/// (EN 300 468, 5.1.1 and 5.1.3).
pub fn naming_of(pid: u16, table: u8) -> Option<Naming>
    ensures { result ≡ naming_of pid table }
{
    match (pid, table) {
        (0x0000, 0x00) | (0x0020..=0x1FFE, 0x02) | (0x0010, 0x40) => Some(Naming::Extension),
        (0x0011, 0x42 | 0x46) => Some(Naming::Network),
        (0x0012, 0x4E..=0x6F) => Some(Naming::Stream),
        _ => None,
    }
}

/// Whether sections of this table on this PID count for a receiver (EN 300 468, 5.1.3).
pub fn is_counted(pid: u16, table: u8) -> bool
    ensures { result ≡ is_counted pid table }
{
    naming_of(pid, table).is_some()
}

/// How often a cycle repeats a table (EN 300 468, 5.1.4; TR 101 211, 4.4).
pub fn tier_of(table: u8) -> Tier3
    ensures { result ≡ tier_of table }
{
    match table {
        0x46 | 0x4F | 0x50 | 0x51 => Tier3::Near,
        0x52..=0x6F => Tier3::Far,
        _ => Tier3::Fast,
    }
}
