// Outcomes with the numbers of publications of the journal that goes on.
ghost use Rattle.std.specs.Prelude.{◌≡◌, ◌+◌, ◌<◌, ◌^◌, IsTrue};
ghost use Rattle.journal_model.specs.Raising.{CanBeRaised, raised};

use crate::step::Outcome;

/// The outcome with the number of its publication raised by the shift. It needs a number that stays one of 64 bits.
pub fn raise(outcome: Outcome, shift: u64) -> Outcome
    requires { CanBeRaised shift outcome }
    ensures { result ≡ raised shift outcome }
{
    match outcome {
        Outcome::Published(number) => Outcome::Published(shift + number),
        Outcome::Swapped(number, at) => Outcome::Swapped(shift + number, at),
        other => other,
    }
}
