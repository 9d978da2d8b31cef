//! A load made from a number: the description of eight services, the edits of two feeds for 14
//! days, and the control's lines.
//!
//! `made_mux`, `made_feed` and `made_control` give exactly the texts of the definitions
//! (`specs/Texts.antt`), so one number always gives the same texts.
//!
//! Tested in `ground_rows`: lengths and sums of the texts.
#![tactic(auto)]

mod control;
mod feed;
mod mux;
mod shows;

pub use control::made_control;
pub use feed::made_feed;
pub use mux::made_mux;
pub use shows::Show;
