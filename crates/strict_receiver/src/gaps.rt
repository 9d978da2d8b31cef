// Where a gap came last.
ghost use Rattle.std.specs.Prelude.{◌≡◌, ◌<◌, ◌++◌, ◌∷◌, [], List, ℕ, Ok};
ghost use Rattle.ts_packets.specs.Bytes.{shape_in};
ghost use Rattle.ts_demux.specs.Arrivals.{arrivals_on};
ghost use Rattle.ts_demux.specs.Breaks.{ends_in_gap};
ghost use Rattle.strict_receiver.specs.Standing.{AreGapsOf};

use std::marker::Model;
use ts_packets::Shape;

// Of each PID whether the last packet of it that is a load or a gap is a gap.
#[derive(Drop)]
pub(crate) struct Gaps {
    flags: [bool; 8192],
}

impl Model for Gaps {
    ghost use Rattle.std.specs.Prelude.{◌≡◌, List, Bool, length};

    ghost Value = { List Bool };

    ghost view = { λ g. g.flags };

    ghost invariant = { λ g. length g.flags ≡ 8192 };
}

impl Gaps {
    // Before any packet. It takes no memory.
    pub(crate) fn none() -> Gaps
        ensures { AreGapsOf [] result }
    {
        Gaps {
            flags: [false; 8192],
        }
    }

    // Whether a gap came last on a PID.
    pub(crate) fn is_last(&self, pid: u16) -> bool
        requires { pid < 8192 }
        ensures { (past : List (List ℕ)) → AreGapsOf past self.now
            → result ≡ ends_in_gap (arrivals_on pid past) }
    {
        self.flags[usize::from(pid)]
    }

    // One packet more.
    pub(crate) fn hear(&mut self, packet: &[u8; 188], shape: &Shape)
        requires { shape_in packet.now ≡ Ok shape.now }
        ensures { (past : List (List ℕ)) → AreGapsOf past self.old
            → AreGapsOf (past ++ packet.now ∷ []) self.new }
    {
        let pid = usize::from(packet[1] % 32) * 256 + usize::from(packet[2]);
        match *shape {
            Shape::Pass => {}
            Shape::Gap(_) => self.flags[pid] = true,
            Shape::Load { .. } => self.flags[pid] = false,
        }
    }
}
