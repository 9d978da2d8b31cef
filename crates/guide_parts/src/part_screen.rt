// What is shown of parts.
use guide_model::{
    Cable, Offsets, RawDescs, ScreenComponents, ScreenEvent, ScreenEvents, ScreenOthers, Shown,
};
use guide_screen::Needs;
use si_base::Items;
use si_time::Moment;
use table_bodies::SdtService;

// A service by its id, with its entry of the SDT, where it has one.
#[derive(Drop)]
pub struct Listed {
    pub service: u16,
    pub entry: Option<SdtService>,
}

/// A network: its network_id, its name, which is empty where none was heard, and its further descriptors
/// (EN 300 468, 5.2.1).
#[derive(Drop)]
pub struct PartNetwork {
    pub id: u16,
    pub name: Shown,
    pub descriptors: RawDescs,
}

/// What is held of a service: its service_id; its service_type (`kind`), the names of its provider and
/// its own and its further descriptors, where the SDT has an entry, and else none and empty names; the
/// PIDs of its PMT and its PCR, the further descriptors of its program, its components, its present and
/// following event, and the events of its schedule, as far as they were heard (ISO/IEC 13818-1, 2.4.4.3 and 2.4.4.8; EN 300 468, 5.2.3, 5.2.4 and 6.2.33).
#[derive(Drop)]
pub struct PartService {
    pub service: u16,
    pub kind: Option<u8>,
    pub provider: Shown,
    pub name: Shown,
    pub descriptors: RawDescs,
    pub pmt_pid: Option<u16>,
    pub pcr_pid: Option<u16>,
    pub program_descriptors: RawDescs,
    pub components: ScreenComponents,
    pub now: Option<ScreenEvent>,
    pub next: Option<ScreenEvent>,
    pub events: ScreenEvents,
}

/// Services in ascending order of service_id.
pub type PartServices = Items<PartService>;

/// What is held of a multiplex: the last moment that was heard, how far the clocks of regions are
/// from UTC, the network, transport_stream_id (`stream`) and original_network_id, how the stream is
/// sent by cable, its further descriptors, its services, and the other streams that were heard whole (EN 300 468, 5.2.1,
/// 5.2.3, 5.2.5 and 5.2.6). What was not heard is None.
#[derive(Drop)]
pub struct PartScreen {
    pub clock: Option<Moment>,
    pub offsets: Offsets,
    pub network: Option<PartNetwork>,
    pub stream: Option<u16>,
    pub original: Option<u16>,
    pub cable: Option<Cable>,
    pub stream_descriptors: RawDescs,
    pub services: PartServices,
    pub others: ScreenOthers,
}

/// The needs that are not met, in order, and what is shown all the same.
#[derive(Drop)]
pub struct PartGuide {
    pub wanting: Needs,
    pub shown: PartScreen,
}
