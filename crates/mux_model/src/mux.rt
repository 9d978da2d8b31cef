// A multiplex, its services and the other streams of its network.
ghost use Rattle.std.specs.Prelude.{◌≡◌, IfOk};

use guide_model::{Cable, Components, Offsets, RawDescs, Txt};
use si_base::{Copies, Items};
use si_time::Moment;
use std::alloc::AllocError;

/// A service of the multiplex: its service_id, the number of the feed that edits it, its service_type (EN 300 468, 6.2.33),
/// the PIDs of its PMT and of its clock reference (ISO/IEC 13818-1, 2.4.4.8), its first names and its components, and the
/// further descriptors that its entry of the SDT and its program have.
#[derive(Drop)]
pub struct MuxService {
    pub service: u16,
    pub feed: u8,
    pub kind: u8,
    pub pmt_pid: u16,
    pub pcr_pid: u16,
    pub provider: Txt,
    pub name: Txt,
    pub components: Components,
    pub descriptors: RawDescs,
    pub program_descriptors: RawDescs,
}

/// Services, in ascending order of their ids.
pub type MuxServices = Items<MuxService>;

/// A service of another stream: its service_id, the number of the feed that edits it, its
/// service_type (EN 300 468, 6.2.33), its first names, and the further descriptors that its entry of
/// the SDT of that stream has.
#[derive(Drop)]
pub struct RemoteService {
    pub service: u16,
    pub feed: u8,
    pub kind: u8,
    pub provider: Txt,
    pub name: Txt,
    pub descriptors: RawDescs,
}

/// Services of another stream, in ascending order of their ids.
pub type RemoteServices = Items<RemoteService>;

/// Another stream of the network (EN 300 468, 5.2.1): its transport_stream_id, its
/// original_network_id, its cable delivery where it is given, its services, and the further
/// descriptors that its entry of the NIT has.
#[derive(Drop)]
pub struct Other {
    pub stream: u16,
    pub original: u16,
    pub cable: Option<Cable>,
    pub services: RemoteServices,
    pub descriptors: RawDescs,
}

/// Other streams, in ascending order of transport_stream_id and then original_network_id.
pub type Others = Items<Other>;

/// A multiplex: network_id and network name, transport_stream_id, original_network_id, its cable
/// delivery where it is given, the moment at which its desk starts, the number of packets between
/// two repeats of its frequent tables, the bit rate at which its air is sent where it is given, in
/// bits per second, how far the clocks of regions are from UTC (EN 300 468, 5.2.6), its services,
/// the other streams of the network, and the further descriptors that the NIT has of the network and
/// of the stream.
#[derive(Drop)]
pub struct Mux {
    pub network: u16,
    pub network_name: Txt,
    pub stream: u16,
    pub original: u16,
    pub cable: Option<Cable>,
    pub start: Moment,
    pub quota: u32,
    pub rate: Option<u32>,
    pub offsets: Offsets,
    pub services: MuxServices,
    pub others: Others,
    pub network_descriptors: RawDescs,
    pub stream_descriptors: RawDescs,
}

impl Copies for MuxService {
    fn copy(&self) -> Result<MuxService, AllocError> {
        Ok(MuxService {
            service: self.service,
            feed: self.feed,
            kind: self.kind,
            pmt_pid: self.pmt_pid,
            pcr_pid: self.pcr_pid,
            provider: self.provider.copy()?,
            name: self.name.copy()?,
            components: self.components.copy()?,
            descriptors: self.descriptors.copy()?,
            program_descriptors: self.program_descriptors.copy()?,
        })
    }
}

impl Copies for RemoteService {
    fn copy(&self) -> Result<RemoteService, AllocError> {
        Ok(RemoteService {
            service: self.service,
            feed: self.feed,
            kind: self.kind,
            provider: self.provider.copy()?,
            name: self.name.copy()?,
            descriptors: self.descriptors.copy()?,
        })
    }
}

impl Copies for Other {
    fn copy(&self) -> Result<Other, AllocError> {
        Ok(Other {
            stream: self.stream,
            original: self.original,
            cable: self.cable,
            services: self.services.copy()?,
            descriptors: self.descriptors.copy()?,
        })
    }
}

impl Mux {
    /// A copy.
    pub fn copy(&self) -> Result<Mux, AllocError>
        ensures { IfOk result (λ copy. copy ≡ self.now) }
    {
        Ok(Mux {
            network: self.network,
            network_name: self.network_name.copy()?,
            stream: self.stream,
            original: self.original,
            cable: self.cable,
            start: self.start,
            quota: self.quota,
            rate: self.rate,
            offsets: self.offsets.copy()?,
            services: self.services.copy()?,
            others: self.others.copy()?,
            network_descriptors: self.network_descriptors.copy()?,
            stream_descriptors: self.stream_descriptors.copy()?,
        })
    }
}
