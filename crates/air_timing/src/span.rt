// Bit rates, and the packets of a frame.
ghost use Rattle.std.specs.Prelude.{◌≡◌, ◌<◌, ◌↔◌, IsTrue};
ghost use Rattle.air_timing.specs.Rate.{gap_at, half_second, least_span, span_within, largest_span, span_at, IsRightSpan};

/// What the leads of frames are like, in packets: a lead has `most` at most, and its first part,
/// which stands in each `often`-th lead, `first` at most. Each section stands again at most `round`
/// leads later.
#[derive(Clone, Copy)]
pub struct Leads {
    pub first: u32,
    pub most: u32,
    pub often: u32,
    pub round: u32,
}

/// The packets of a frame, and whether they are right for its leads.
#[derive(Clone, Copy)]
pub struct Span {
    pub packets: u64,
    pub is_right: bool,
}

/// The fewest whole packets that last 25 ms or more, at a rate in bits per second.
pub fn gap_at(rate: u32) -> u32
    ensures { result ≡ gap_at rate }
{
    rate.div_ceil(60160)
}

/// The most packets that last half a second at most, at a rate in bits per second.
pub fn half_second(rate: u32) -> u32
    ensures { result ≡ half_second rate }
{
    rate / 3008
}

/// The largest span with which these leads are right at a rate in bits per second: the first part
/// of leads is sent again within half a second, and each section within two seconds. Where no span
/// is right, the least one with which frames are as near as `frames_are_near` says.
pub fn span_at(rate: u32, leads: Leads) -> Span
    requires often { 0 < leads.often }
    requires round { 0 < leads.round }
    ensures span { result.packets ≡ span_at rate leads }
    ensures right { IsTrue result.is_right ↔ IsRightSpan rate leads result.packets }
{
    let least = least_span(leads, gap_at(rate));
    let largest = largest_span(rate, leads);
    Span {
        packets: largest.max(least),
        is_right: least <= largest,
    }
}

fn least_span(leads: Leads, gap: u32) -> u64
    ensures { result ≡ least_span leads gap }
{
    u64::from(leads.most) + 2 * u64::from(gap) + 26
}

fn largest_span(rate: u32, leads: Leads) -> u64
    requires often { 0 < leads.often }
    requires round { 0 < leads.round }
    ensures { result ≡ largest_span rate leads }
{
    let gap = u64::from(gap_at(rate));
    let half = u64::from(half_second(rate));
    let first = 1 + gap + u64::from(leads.first);
    let most = 1 + gap + u64::from(leads.most);
    let in_half = span_within(half, first, leads.often, gap);
    let in_two = span_within(4 * half, most, leads.round, gap);
    in_half.min(in_two)
}

fn span_within(packets: u64, ahead: u64, times: u32, gap: u64) -> u64
    requires { 0 < times }
    ensures { result ≡ span_within packets ahead times gap }
{
    (packets.saturating_sub(ahead) / u64::from(times)).saturating_sub(gap)
}
