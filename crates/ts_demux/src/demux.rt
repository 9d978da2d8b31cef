// The demultiplexer of sections.
ghost use Rattle.std.specs.Prelude.{◌≡◌, ◌++◌, ◌∷◌, [], List, ℕ, Ok, IfOk, OnOk, OnErr};
ghost use Rattle.ts_packets.specs.Bytes.{shape_in};
ghost use Rattle.ts_demux.specs.Sections.{ended_by};
ghost use Rattle.ts_demux.specs.Keeping.{DemuxStandsFor};
ghost use Rattle.ts_demux.specs.Breaks.{follows_in};

use crate::places::Places;
use crate::section::RawSections;
use crate::slot::LoadShape;
use si_base::Items;
use std::alloc::{AllocError, Global};
use std::marker::Model;
use ts_packets::Shape;

/// A demultiplexer of sections: it hears the packets of a transport stream, whatever packets come, and gives the
/// sections that they carry, of every PID. It stands for the packets that it has heard, and keeps of each PID the last
/// load and the section that is open. It keeps its allocator.
#[derive(Drop)]
pub struct Demux {
    alloc: Global,
    places: Places,
}

impl Model for Demux {
    ghost use Rattle.std.specs.Prelude.{List, Option};
    ghost use Rattle.ts_demux.specs.Keeping.{PidState};

    ghost Value = { List (Option PidState) };

    ghost view = { λ d. d.places };
}

impl Demux {
    /// A demultiplexer that has heard no packet. It takes no memory.
    pub fn open(alloc: Global) -> Demux
        ensures { DemuxStandsFor [] result }
    {
        Demux {
            alloc,
            places: Places::none(alloc),
        }
    }

    /// Hears one packet more: the sections that it ends, in the order in which they end. It needs the shape that
    /// `read_packet` gives of the packet.
    ///
    /// On each PID a load with the continuity_counter and the payload of the last load is a repeat, and is passed over,
    /// unless a gap came between. A gap, and a load whose counter is not the next one, drop the section that is open
    /// (ISO/IEC 13818-1, 2.4.3.3). Sections begin at the place that a pointer_field tells, one behind the other, up to
    /// the packet's end or a byte 0xFF; the packets behind go on with the last of them, up to the next pointer_field's
    /// target (2.4.4). A section with a section_length above 4,093 is dropped, and what stands behind it in the packet in
    /// which it begins is not heard.
    ///
    /// Where memory is wanting, nothing was heard: the demultiplexer stands for the packets before, and the same packet
    /// can be heard again. Memory is taken where a section begins or ends, and at the first load of a PID.
    pub fn hear(&mut self, packet: &[u8; 188], shape: &Shape) -> Result<RawSections, AllocError>
        requires { shape_in packet.now ≡ Ok shape.now }
        ensures heard { (past : List (List ℕ)) → DemuxStandsFor past self.old → IfOk result (λ sections. sections ≡ ended_by past packet.now) }
        ensures stands { (past : List (List ℕ)) → DemuxStandsFor past self.old → OnOk result (DemuxStandsFor (past ++ packet.now ∷ []) self.new) }
        ensures memory { (past : List (List ℕ)) → DemuxStandsFor past self.old → OnErr result (DemuxStandsFor past self.new) }
    {
        match *shape {
            Shape::Pass => Ok(Items::new(self.alloc)),
            Shape::Gap(pid) => {
                self.places.forget(pid);
                Ok(Items::new(self.alloc))
            }
            Shape::Load {
                pid,
                start,
                counter,
                at,
            } => {
                let load = LoadShape {
                    pid,
                    start,
                    counter,
                    at,
                };
                self.places.hear(self.alloc, packet, load)
            }
        }
    }

    /// Whether a load goes on with the last load of its PID: its continuity_counter is the next one, or it
    /// repeats that load (ISO/IEC 13818-1, 2.4.3.3). It is None where there is no last load, as before the
    /// first load and after a gap, and where the packet is no load. It needs the shape that `read_packet`
    /// gives of the packet. It takes no memory.
    pub fn follows(&self, packet: &[u8; 188], shape: &Shape) -> Option<bool>
        requires { shape_in packet.now ≡ Ok shape.now }
        ensures { (past : List (List ℕ)) → DemuxStandsFor past self.now
            → result ≡ follows_in past packet.now }
    {
        match *shape {
            Shape::Pass => None,
            Shape::Gap(_) => None,
            Shape::Load {
                pid,
                start,
                counter,
                at,
            } => {
                let load = LoadShape {
                    pid,
                    start,
                    counter,
                    at,
                };
                self.places.follows(packet, load)
            }
        }
    }
}
