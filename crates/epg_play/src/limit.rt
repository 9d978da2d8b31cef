// How a script is played that is not followed, and how long it may be.
ghost use Rattle.std.specs.Prelude.{◌≡◌, ◌<◌, ◌-◌, ◌^◌};
ghost use Rattle.epg_play.specs.Script.{limit_for};

// How many bytes a script may have.
const TEXT_LIMIT: u64 = 67_108_864;

/// How many bytes a long script may have.
pub const LONG_LIMIT: u64 = 18_446_744_073_709_551_614;

/// How a script is played: whether the report is the checkpoint, and whether the script may have
/// 18,446,744,073,709,551,614 bytes in place of 67,108,864.
#[derive(Clone, Copy)]
pub struct PlayAs {
    pub fold: bool,
    pub long: bool,
}

/// How many bytes a script may have that is long, or not.
pub(crate) fn script_limit(long: bool) -> u64
    ensures value { result ≡ limit_for long }
    ensures below { result < 2 ^ 64 - 1 }
{
    if long { LONG_LIMIT } else { TEXT_LIMIT }
}
