//! The time and date table, TDT, and the time offset table, TOT (EN 300 468, 5.2.5 and 5.2.6).
//!
//! `write_tdt` gives the whole section of a moment. `read_tdt` gives exactly the moment of a body,
//! or `None` where it has none. `write_tot` and `read_tot` do the same for a TOT, which also says
//! how far the clocks of regions are from UTC (local_time_offset_descriptor, 6.2.20).
//! `read_section` reads a written section, and its body reads back (`written_times_read_back`,
//! `written_offsets_read_back`). The calls for a TDT take no memory.
#![tactic(auto)]

mod laws;
mod local_offsets;
mod tdt;
mod tot;

pub use laws::{written_offsets_read_back, written_times_read_back};
pub use tdt::{read_tdt, write_tdt};
pub use tot::{Tot, read_tot, write_tot};
