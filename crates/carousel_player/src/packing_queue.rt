// Sections that are still to be sent.
ghost use Rattle.std.specs.Prelude.{◌≡◌, ◌<◌, List, length, drop};
ghost use Rattle.std.specs.List.{AllByRecursion};
ghost use Rattle.air_model.specs.Air.{Sent};
ghost use Rattle.carousel_player.specs.Queue.{CanBeSent, first_pid, first_bytes};

/// Sections that are still to be sent, one after the other.
///
/// Contracts speak of these sections (`sections`), and of what else a queue keeps while sections
/// are passed (`keeps`): a caller that lends a queue knows by it what stays.
pub trait SectionQueue {
    /// The sections still to be sent, in their order.
    ghost sections: { Self → List Sent };

    /// What the second has of the first, from which sections were passed.
    ghost keeps: { Self → Self → Type 0 };

    /// The PID of the first section, or None where there is none. Each section has a byte, and a
    /// PID below 8,192.
    fn pid(&self) -> Option<u16>
        ensures first { result ≡ first_pid (sections self.now) }
        ensures fit { AllByRecursion CanBeSent (sections self.now) };

    /// The bytes of the first section.
    fn bytes(&self) -> &[u8]
        requires { 0 < length (sections self.now) }
        ensures { result.now ≡ first_bytes (sections self.now) };

    /// Passes the first section: the one after it is the first.
    fn pass(&mut self)
        requires { 0 < length (sections self.old) }
        ensures rest { sections self.new ≡ drop 1 (sections self.old) }
        ensures keeps { keeps self.old self.new };

    /// A queue keeps all where nothing is done.
    ghost keeps_at_once: { (a : Self) → keeps a a };

    /// And so one call after another.
    ghost keeps_later: { (a b c : Self) → keeps a b → keeps b c → keeps a c };
}
