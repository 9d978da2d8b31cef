// The records of a description.
use guide_model::{Cable, Component, Offset, RawDescs, Txt};
use mux_model::{MuxService, RemoteService};
use si_time::Moment;

/// Where further descriptors stand: in the first loop of the NIT; in its entry of the own stream; in its entry of another
/// stream with this id and original network; in the entry of the service with this id in the SDT; in the first loop of its
/// PMT; in the entry of its component with this PID.
#[derive(Clone, Copy)]
pub enum Place {
    InNetwork,
    InStream,
    InOther(u16, u16),
    InService(u16),
    InProgram(u16),
    InComponent(u16, u16),
}

/// What a line of the description says: the network's id and name; the stream's id and its original network; the cable
/// delivery; a service, still without components; a component of a service; the moment at which the desk starts; the
/// quota; the bit rate of the air; how far the clocks of a region are from UTC; another stream's id, its original network and its cable
/// delivery; a service of the other stream with this id and original network; further descriptors of a place; the end.
#[derive(Drop)]
pub enum Record {
    Network(u16, Txt),
    Stream(u16, u16),
    Delivery(Cable),
    Service(MuxService),
    Part(u16, Component),
    Start(Moment),
    Quota(u32),
    Rate(u32),
    Local(Offset),
    Elsewhere(u16, u16, Option<Cable>),
    Remote(u16, u16, RemoteService),
    Further(Place, RawDescs),
    End,
}

/// A record and the number of its line.
#[derive(Drop)]
pub struct Numbered {
    pub line: u64,
    pub says: Record,
}

/// What was found in a line: no record, a record with a field outside its range, or this one.
#[derive(Drop)]
pub enum RecordFound {
    NoRecord,
    OutOfRange,
    Is(Record),
}
