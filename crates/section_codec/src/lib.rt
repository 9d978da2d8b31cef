//! Sections in bytes, and the keys that name sub-tables (ISO/IEC 13818-1, 2.4.4; EN 300 468, 5.1).
//!
//! `write_long` and `put_section` give the bytes of a section in the long form, with its CRC.
//! `write_short` gives those of the short form, and `write_short_crc` those of a TOT, which has the
//! short form and a CRC. `read_section` gives exactly the section that bytes are, or the first
//! reason to refuse them. Written sections read back (`written_sections_read_back`). `key_of` gives
//! the key of a section: its PID, table_id and extension, as `specs/Keys.antt` says.
//! `specs/Tables.antt` is the table of tables: of each table_id its form, its PID, what names its
//! sub-tables, whether they count, and how often a cycle repeats them. `is_eit`, `has_long_form`,
//! `has_short_form`, `naming_of`, `is_counted`, `tier_of` and `is_listed` read it.
//! `specs/SubTables.antt` says which sub-tables can be sent. `eit_numbers`, `segment_last` and
//! `same_content` are exact; `same_content` compares contents by value (`contents_are_compared`).
#![tactic(auto)]

mod content;
mod keys;
mod reading;
mod section;
mod table;
mod tables;
mod writing;

pub use content::{contents_are_compared, same_content};
pub use keys::{eit_numbers, is_listed, key_of, segment_last};
pub use reading::{read_section, written_sections_read_back};
pub use section::{BadSection, LongHeader, Section};
pub use table::{Key, Naming, NumberedBodies, NumberedBody, SubTable, SubTables, Tables, Tier3};
pub use tables::{has_long_form, has_short_form, is_counted, is_eit, naming_of, tier_of};
pub use writing::{put_section, write_long, write_short, write_short_crc};
