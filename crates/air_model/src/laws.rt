// Laws of airs with null packets.
ghost use Rattle.air_model.specs.Nulls.{NullsAreLeftOut, RepeatingNullsAreLeftOut, PlainAirsArePackets, PlainAirsHaveNoNull};
ghost use Rattle.air_model.specs.Bursts.{BurstsAreCycles, BurstsGoOn};

/// An air without its null packets is an air of the same airings (ISO/IEC 13818-1, 2.4.3.3). Its packets
/// are those of the air that are no null packets.
pub fn nulls_are_left_out()
    ensures air { NullsAreLeftOut }
    ensures repeating { RepeatingNullsAreLeftOut }
    ensures packets { PlainAirsArePackets }
    ensures none { PlainAirsHaveNoNull }
{}

/// Sections of an airing in bursts, in whatever order, with any number of null packets before each burst,
/// are a cycle of the airing, and make an air longer.
pub fn paced_airs_go_on()
    ensures cycle { BurstsAreCycles }
    ensures air { BurstsGoOn }
{}
