// What a receiver shows. The further descriptors of a loop are those that no other field shows whole, in their order.
use crate::Shown;
use crate::descriptor::RawDescs;
use crate::event::{Genres, Rating};
use crate::offset::Offsets;
use crate::stream::Cable;
use si_base::Items;
use si_time::Moment;

/// An event as it was heard: its id, start, duration in seconds, the language of its texts (three letters), its
/// texts, where they were heard its rating and genres, and its further descriptors (EN 300 468, 5.2.4, 6.2.9,
/// 6.2.15, 6.2.28, 6.2.37).
#[derive(Drop)]
pub struct ScreenEvent {
    pub id: u16,
    pub start: Moment,
    pub seconds: u32,
    pub language: [u8; 3],
    pub name: Shown,
    pub short: Shown,
    pub extended: Shown,
    pub rating: Option<Rating>,
    pub genres: Genres,
    pub descriptors: RawDescs,
}

/// Events in the order in which they are shown.
pub type ScreenEvents = Items<ScreenEvent>;

/// An elementary stream of a service as it was heard: its stream_type, its PID, its language (three letters) where it
/// was heard, and its further descriptors (ISO/IEC 13818-1, 2.4.4.8).
#[derive(Drop)]
pub struct ScreenComponent {
    pub stream_type: u8,
    pub pid: u16,
    pub language: Option<[u8; 3]>,
    pub descriptors: RawDescs,
}

/// Components of a service, in the order in which they stand.
pub type ScreenComponents = Items<ScreenComponent>;

/// A service as it was heard: its service_id, its service_type (`kind`), the names of its provider and its own, its
/// further descriptors in the SDT, the PIDs of its PMT and its PCR where a program gives them, the further descriptors of
/// its program, its components, its present and following event, and the events of its schedule (ISO/IEC 13818-1,
/// 2.4.4.3 and 2.4.4.8; EN 300 468, 5.2.3, 5.2.4 and 6.2.33).
#[derive(Drop)]
pub struct ScreenService {
    pub service: u16,
    pub kind: u8,
    pub provider: Shown,
    pub name: Shown,
    pub descriptors: RawDescs,
    pub pmt_pid: Option<u16>,
    pub pcr_pid: Option<u16>,
    pub program_descriptors: RawDescs,
    pub components: ScreenComponents,
    pub now: Option<ScreenEvent>,
    pub next: Option<ScreenEvent>,
    pub events: ScreenEvents,
}

/// Services in ascending order of service_id.
pub type ScreenServices = Items<ScreenService>;

/// A service of another stream as it was heard: its service_id, its service_type (`kind`), the names of its provider
/// and its own, its further descriptors, its present and following event, and the events of its schedule (EN 300 468,
/// 5.2.3, 5.2.4 and 6.2.33).
#[derive(Drop)]
pub struct ScreenRemote {
    pub service: u16,
    pub kind: u8,
    pub provider: Shown,
    pub name: Shown,
    pub descriptors: RawDescs,
    pub now: Option<ScreenEvent>,
    pub next: Option<ScreenEvent>,
    pub events: ScreenEvents,
}

/// Services of another stream in ascending order of service_id.
pub type ScreenRemotes = Items<ScreenRemote>;

/// Another stream as it was heard: its transport_stream_id (`stream`) and original_network_id, how it is sent by cable
/// where that is said, its further descriptors in the NIT, and its services (EN 300 468, 5.2.1 and 5.2.3).
#[derive(Drop)]
pub struct ScreenOther {
    pub stream: u16,
    pub original: u16,
    pub cable: Option<Cable>,
    pub descriptors: RawDescs,
    pub services: ScreenRemotes,
}

/// Other streams in ascending order of transport_stream_id and then original_network_id.
pub type ScreenOthers = Items<ScreenOther>;

/// What a receiver shows of a multiplex: the last moment that it heard, how far the clocks of
/// regions are from UTC, network_id, name and further descriptors of the network, transport_stream_id
/// (`stream`) and original_network_id, how the stream is sent by cable where that is said, its further
/// descriptors in the NIT, the services, and the other streams (EN 300 468, 5.2.1, 5.2.3, 5.2.5 and
/// 5.2.6).
#[derive(Drop)]
pub struct Screen {
    pub clock: Moment,
    pub offsets: Offsets,
    pub network: u16,
    pub network_name: Shown,
    pub network_descriptors: RawDescs,
    pub stream: u16,
    pub original: u16,
    pub cable: Option<Cable>,
    pub stream_descriptors: RawDescs,
    pub services: ScreenServices,
    pub others: ScreenOthers,
}
