// Bytes into packets, heard as they become whole.
ghost use Rattle.std.specs.Prelude.{◌≡◌, ◌≤◌, ◌<◌, ◌++◌, List, ℕ, length, take};
ghost use Rattle.air_monitor.specs.Heard.{HasTaken};

use crate::listener::Listener;
use crate::part::Part;

// Hears these bytes, which stand behind the part of a packet.
pub(crate) fn listen(listener: &mut Listener, part: &mut Part, bytes: &[u8])
    requires { length part.old < 188 }
    ensures shorter { length part.new < 188 }
    ensures taken { (past : List ℕ) → HasTaken past part.old listener.old
        → HasTaken (past ++ bytes.now) part.new listener.new }
    ensures join { listener.new.join ≡ listener.old.join }
{
    let mut at = 0;
    while at < bytes.len() {
        let (_, rest) = bytes.split_at(at);
        at += listen_once(listener, part, rest);
    }
}

// Hears a front of these bytes: what is wanting of the packet, or all.
fn listen_once(listener: &mut Listener, part: &mut Part, bytes: &[u8]) -> usize
    requires { length part.old < 188 }
    ensures within { result ≤ length bytes.now }
    ensures some { 0 < length bytes.now → 0 < result }
    ensures shorter { length part.new < 188 }
    ensures taken { (past : List ℕ) → HasTaken past part.old listener.old
        → HasTaken (past ++ take result bytes.now) part.new listener.new }
    ensures join { listener.new.join ≡ listener.old.join }
{
    let count = part.add(bytes);
    if part.is_whole() {
        listener.hear(part.packet());
        part.clear();
    }
    count
}
