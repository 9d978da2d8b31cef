//! What a receiver shows of the tables that it completed, or still needs (ISO/IEC 13818-1, 2.4.4;
//! EN 300 468, 5.2).
//!
//! `heard_guide` gives exactly the needs that are not met, in order, or else the whole screen, with
//! the moment of the last TDT, the offsets of the last TOT, and the other streams that were
//! described. It is whole exactly where nothing is needed (`screens_need_nothing`).
//! `specs/Needs.antt` says what is needed, `specs/Screen.antt` what is shown, and
//! `specs/Reading.antt` what the sections of a table say together. Worked screens stand in
//! `specs/Rows.antt`. Not promised: that it fails only where memory runs out.
#![tactic(auto)]

mod content_values;
mod contents;
mod heard;
mod laws;
mod need;
mod needs;
mod others;
mod schedule;
mod screen;
mod services;

pub use content_values::{
    event_at, network_descriptors, network_name, pmt_told, programs_in, put_events, services_in,
    streams_in,
};
pub use contents::{Latest, eit_key, pmt_key};
pub use heard::heard_guide;
pub use laws::screens_need_nothing;
pub use need::{Heard, Need, Needs};
pub use needs::{needs_of, tables_to};
pub use others::{cable_in, descriptors_in, is_other, other_stream};
pub use screen::{Program, copied, pids_of, pmt_pid, program_of};
pub use services::{programs_of, services_of};
