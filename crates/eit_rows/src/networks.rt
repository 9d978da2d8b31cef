// The network information table, both ways.
ghost use Rattle.std.specs.Prelude.{◌<◌, ◌≤◌, sum_by, IsTrue};
ghost use Rattle.std.specs.List.{All};
ghost use Rattle.table_bodies.specs.Nit.{FitsStream, stream_size};

use crate::service_descriptors::{cable_in, fits, kinds_in, put_cable, put_kinds};
use guide_model::{RawDescs, Shown};
use row_lines::{Row, each_part, put_made, put_read, put_shown, say, text};
use si_base::Items;
use std::fmt::Write;
use table_bodies::{Nit, NitStream, read_nit, write_nit};

// A stream: its two ids, its cable or `-`, and its services, as `2 1 - 201:1`.
fn stream_in(row: &mut Row) -> Option<NitStream> {
    let stream = row.short();
    let original = row.short();
    let word = row.word();
    Some(NitStream {
        stream,
        original,
        cable: if word == "-" {
            None
        } else {
            Some(cable_in(row, word))
        },
        services: kinds_in(row),
        descriptors: RawDescs::new(row.alloc()),
    })
}

// Whether its cable and its services fit their descriptors, and it has no further ones.
fn fits_stream(stream: &NitStream) -> bool
    ensures fits { IsTrue result → FitsStream stream.now }
    ensures few { IsTrue result → stream_size stream.now ≤ 276 }
{
    let fits_cable = match &stream.cable {
        None => true,
        Some(cable) => fits(cable),
    };
    fits_cable && stream.services.len() <= 85 && stream.descriptors.is_empty()
}

// Whether each fits, and all the loop, which takes 14 in any case.
fn fit(streams: &[NitStream]) -> bool
    ensures each { IsTrue result → All FitsStream streams.now }
    ensures within { IsTrue result → sum_by stream_size streams.now < 4096 }
{
    if streams.len() > 14 {
        return false;
    }
    for stream in streams {
        if !fits_stream(stream) {
            return false;
        }
    }
    true
}

/// `write_nit NAME / STREAM ORIGINAL CABLE SERVICE:TYPE .. / ..`, where a cable is its five numbers or `-`.
pub fn write_network(row: &mut Row) {
    let Some(name) = text(row) else {
        return;
    };
    let nit = Nit {
        name: Shown::Text(name),
        descriptors: RawDescs::new(row.alloc()),
        streams: Items::of(each_part(row, stream_in)),
    };
    if nit.name.coded_len() > 255 || !fit(nit.streams.as_slice()) {
        return row.refuse();
    }
    put_made(row, write_nit(row.alloc(), &nit));
}

/// `read_nit BYTES`.
pub fn read_network(row: &mut Row, body: &[u8]) {
    let read = read_nit(row.alloc(), body);
    put_read(row, read, " none", put_nit);
}

fn put_nit(row: &mut Row, nit: &Nit) {
    put_shown(row, &nit.name);
    for stream in nit.streams.as_slice() {
        put_stream(row, stream);
    }
    row.put(";");
}

fn put_stream(row: &mut Row, stream: &NitStream) {
    say!(row; " / {} {}", stream.stream, stream.original);
    match &stream.cable {
        None => row.put(" -"),
        Some(cable) => put_cable(row, cable),
    }
    put_kinds(row, stream.services.as_slice());
}
