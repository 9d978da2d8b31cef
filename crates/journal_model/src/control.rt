// What a control asks for.
use si_time::Moment;

/// What a control line asks for: a tick of the clock to a moment, or a publish.
#[derive(Clone, Copy, PartialEq, Eq)]
pub enum Control {
    Tick(Moment),
    Publish,
}
