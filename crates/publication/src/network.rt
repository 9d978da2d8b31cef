// The network information table.
ghost use Rattle.std.specs.Prelude.{◌≡◌, ◌≤◌, ◌<◌, ◌+◌, ◌∷◌, ◌++◌, [], List, length, map, sum_by, IfOk, OnOk};
ghost use Rattle.std.specs.List.{All};
ghost use Rattle.mux_model.specs.Sound.{IsSound};
ghost use Rattle.section_codec.specs.declared.table.NumberedBody.{NumberedBody as NumberedBodyShape};
ghost use Rattle.table_bodies.specs.declared.nit.NitStream.{NitStream as NitStreamShape};
ghost use Rattle.table_bodies.specs.Nit.{FitsStream, stream_size};
ghost use Rattle.publication.specs.Network.{kind_of, remote_kind, remote_kinds, nit_of, nit_section, nit_sections, nit_table, other_stream, stream_of, streams_room};
ghost use Rattle.publication.specs.Writing.{AreStreamsUnderWay, IsStreamRun};

use crate::programs::NIT_PID;
use descriptors::{ServiceKind, ServiceKinds, descriptors_len};
use guide_model::{Shown, coded_len};
use mux_model::{Mux, MuxService, Other};
use section_codec::{Key, NumberedBodies, NumberedBody, SubTable, Tier3};
use std::alloc::{AllocError, Global};
use std::mem;
use table_bodies::{Nit, NitStream, NitStreams, stream_len, write_nit};

/// The table_id of the network information table of the actual network (EN 300 468, 5.1.3).
const NIT: u8 = 0x40;

/// The most bytes of the body of a section of the NIT: 1,024 without its header and its CRC.
const LONGEST: usize = 1_012;

// The ids and the types of these services.
fn kinds(alloc: Global, services: &[MuxService]) -> Result<ServiceKinds, AllocError>
    ensures { IfOk result (λ kinds. kinds ≡ map kind_of services.now) }
{
    let mut kinds = ServiceKinds::new(alloc);
    for service in services {
        kinds.push(ServiceKind {
            service: service.service,
            kind: service.kind,
        })?;
    }
    Ok(kinds)
}

// The ids and the types of the services of another stream.
fn remote_kinds(alloc: Global, other: &Other) -> Result<ServiceKinds, AllocError>
    ensures { IfOk result (λ kinds. kinds ≡ remote_kinds other.now) }
{
    let mut kinds = ServiceKinds::new(alloc);
    for service in other.services.as_slice() {
        kinds.push(ServiceKind {
            service: service.service,
            kind: service.kind,
        })?;
    }
    Ok(kinds)
}

// The transport stream of this multiplex.
fn stream(alloc: Global, mux: &Mux) -> Result<NitStream, AllocError>
    ensures { IfOk result (λ stream. stream ≡ stream_of mux.now) }
{
    Ok(NitStream {
        stream: mux.stream,
        original: mux.original,
        cable: mux.cable,
        services: kinds(alloc, mux.services.as_slice())?,
        descriptors: mux.stream_descriptors.copy()?,
    })
}

// Another stream.
fn other_stream(alloc: Global, other: &Other) -> Result<NitStream, AllocError>
    ensures { IfOk result (λ stream. stream ≡ other_stream other.now) }
{
    Ok(NitStream {
        stream: other.stream,
        original: other.original,
        cable: other.cable,
        services: remote_kinds(alloc, other)?,
        descriptors: other.descriptors.copy()?,
    })
}

// The name of the network, its further descriptors, and these streams.
fn network(mux: &Mux, streams: NitStreams) -> Result<Nit, AllocError>
    ensures { IfOk result (λ nit. nit ≡ nit_of mux.now streams) }
{
    Ok(Nit {
        name: Shown::Text(mux.network_name.copy()?),
        descriptors: mux.network_descriptors.copy()?,
        streams,
    })
}

// The streams of the section that is written, and how many bytes their entries have.
#[derive(Drop)]
struct Run {
    streams: NitStreams,
    size: usize,
}

// The run without a stream.
fn no_run(alloc: Global) -> Run
    ensures streams { result.streams ≡ [] }
    ensures size { result.size ≡ 0 }
{
    Run {
        streams: NitStreams::new(alloc),
        size: 0,
    }
}

// The run of the stream of this multiplex alone.
fn own_run(alloc: Global, mux: &Mux) -> Result<Run, AllocError>
    requires { IsSound mux.now }
    ensures streams { IfOk result (λ run. run.streams ≡ stream_of mux.now ∷ []) }
    ensures size { IfOk result (λ run. run.size ≡ stream_size (stream_of mux.now)) }
{
    let own = stream(alloc, mux)?;
    let size = stream_len(&own);
    let mut streams = NitStreams::new(alloc);
    streams.push(own)?;
    Ok(Run { streams, size })
}

// How many bytes a section leaves for the entries of streams.
fn streams_room(mux: &Mux) -> usize
    requires { IsSound mux.now }
    ensures { result ≡ streams_room mux.now }
{
    let descs = mux.network_descriptors.as_slice();
    let front = 6 + coded_len(mux.network_name.as_str()) + descriptors_len(descs);
    LONGEST - front
}

// Closes the section of these streams: it gets the next number.
fn close(
    alloc: Global,
    mux: &Mux,
    closed: &mut NumberedBodies,
    streams: NitStreams,
) -> Result<(), AllocError>
    requires sound { IsSound mux.now }
    requires few { length closed.old < 256 }
    requires fit { All FitsStream streams }
    requires within { sum_by stream_size streams ≤ 1012 }
    ensures { OnOk result (closed.new ≡ closed.old ++ record { number = length closed.old; body = nit_section mux.now streams } ∷ []) }
{
    let number = closed.len() as u8;
    let nit = network(mux, streams)?;
    let body = write_nit(alloc, &nit)?;
    closed.push(NumberedBody { number, body })?;
    Ok(())
}

// Puts a stream into the section that is written, or, where its entry does not fit, into the next.
fn put_stream(
    alloc: Global,
    mux: &Mux,
    closed: &mut NumberedBodies,
    run: &mut Run,
    stream: NitStream,
) -> Result<(), AllocError>
    requires sound { IsSound mux.now }
    requires few { length closed.old < 256 }
    requires run { IsStreamRun (streams_room mux.now) run.old.streams run.old.size }
    requires fits { FitsStream stream }
    requires size { stream_size stream ≤ streams_room mux.now }
    ensures few { OnOk result (length closed.new ≤ 1 + length closed.old) }
    ensures run { OnOk result (IsStreamRun (streams_room mux.now) run.new.streams run.new.size) }
    ensures put { OnOk result ((left : List NitStreamShape) (all : List NumberedBodyShape) → AreStreamsUnderWay mux.now (stream ∷ left) all closed.old run.old.streams → AreStreamsUnderWay mux.now left all closed.new run.new.streams) }
{
    let len = stream_len(&stream);
    if streams_room(mux) < run.size + len {
        let full = mem::replace(run, no_run(alloc));
        close(alloc, mux, closed, full.streams)?;
    }
    run.streams.push(stream)?;
    run.size += len;
    Ok(())
}

// The sections of the NIT of this multiplex. A section is closed where the entry of the next stream does not fit.
fn nit_sections(alloc: Global, mux: &Mux) -> Result<NumberedBodies, AllocError>
    requires { IsSound mux.now }
    ensures { IfOk result (λ sections. sections ≡ nit_sections mux.now) }
{
    let mut closed = NumberedBodies::new(alloc);
    let mut run = own_run(alloc, mux)?;
    for other in mux.others.as_slice() {
        let carried = other_stream(alloc, other)?;
        put_stream(alloc, mux, &mut closed, &mut run, carried)?;
    }
    close(alloc, mux, &mut closed, run.streams)?;
    Ok(closed)
}

/// The network information table of this multiplex (EN 300 468, 5.2.1).
pub(crate) fn nit_table(alloc: Global, mux: &Mux) -> Result<SubTable, AllocError>
    requires { IsSound mux.now }
    ensures { IfOk result (λ table. table ≡ nit_table mux.now) }
{
    let key = Key {
        pid: NIT_PID,
        table: NIT,
        ext: mux.network,
        stream: 0,
        network: 0,
    };
    Ok(SubTable {
        key,
        tier: Tier3::Fast,
        sections: nit_sections(alloc, mux)?,
    })
}
