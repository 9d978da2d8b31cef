//! The descriptors of networks, streams, services, components and events, and what all descriptors
//! are made of (EN 300 468, 6.1 and 6.2; ISO/IEC 13818-1, 2.6.18).
//!
//! [`read_descriptors`] gives the one list of descriptors that bytes are, or `None` where they are
//! none (`descriptors_are_unique`). [`write_descriptors`] appends a list, of which want of memory may
//! leave a part, and [`descriptors_len`] says how many bytes it has. [`Coded`] writes a text, with or
//! without its length, into room that was taken before. [`split_length`] and [`behind_length`] read
//! bytes that follow a length of 8 bits. Bytes written after their length read back
//! (`lengths_read_back`). [`no_text`] is the empty text, for a descriptor without one.
//!
//! The descriptors of networks, streams, services and components are network_name, service_list,
//! cable_delivery_system, service and ISO_639_language (EN 300 468, 6.2.13.1, 6.2.27, 6.2.33 and
//! 6.2.35; ISO/IEC 13818-1, 2.6.18). Those of an event are short_event, extended_event, content and
//! parental_rating (EN 300 468, 6.2.9, 6.2.15, 6.2.28 and 6.2.37). The written form and the reading
//! of a descriptor stand in one file of `specs/`.
//!
//! [`take_first`] gives what the first descriptor of a kind ([`DescriptorKind`]) says whose body fits,
//! and takes it out of its list where that shows all of it. The kinds stand in `descriptor_kinds`.
//!
//! A writer of one descriptor appends the written form, or changes nothing where memory runs out. A reader gives
//! exactly the value of a body, or `None` where it has none. Written descriptors read back
//! (`written_descriptors_read_back`, `written_event_descriptors_read_back`).
//! `write_event_descriptors` appends all descriptors of an event, the further ones last. `event_len` is the size of an
//! event's entry in a section, at most 1,578 bytes.
#![tactic(auto)]

mod cable_delivery;
mod coded;
mod content;
pub mod descriptor_kinds;
mod descriptors;
mod event_descriptors;
mod event_laws;
mod extended_event;
mod first;
mod languages;
mod lengths;
mod network_name;
mod parental_rating;
mod part_laws;
mod service;
mod service_laws;
mod service_list;
mod short_event;

pub use cable_delivery::{read_cable_delivery_system, write_cable_delivery_system};
pub use coded::{Coded, no_text};
pub use content::{read_content, write_content};
pub use descriptors::{descriptors_len, read_descriptors, write_descriptors};
pub use event_descriptors::{event_len, write_event_descriptors};
pub use event_laws::written_event_descriptors_read_back;
pub use extended_event::{ExtendedPiece, read_extended_event, write_extended_event};
pub use first::{DescriptorKind, take_first};
pub use languages::{Languages, read_iso_639_language, write_iso_639_language};
pub use lengths::{behind_length, split_length};
pub use network_name::{read_network_name, write_network_name};
pub use parental_rating::{Ratings, read_parental_rating, write_parental_rating};
pub use part_laws::{descriptors_are_unique, lengths_read_back};
pub use service::{ServiceText, read_service, write_service, write_service_fields};
pub use service_laws::written_descriptors_read_back;
pub use service_list::{ServiceKind, ServiceKinds, read_service_list, write_service_list};
pub use short_event::{ShortEvent, read_short_event, write_short_event};
