// Laws of descriptions.
ghost use Rattle.mux_config.specs.Laws.{DescribedTextsAreKept, WholeDescriptionsAreSound};

/// The multiplex of a whole description is sound, and its network id, its stream id and its original network id are of
/// 16 bits. The definitions alone tell it, of any lines, whether or not a reader ever gives them.
pub fn whole_descriptions_are_sound()
    ensures { WholeDescriptionsAreSound }
{}

/// The names of the network, of providers and of services that a whole description gives may be kept.
pub fn described_texts_are_kept()
    ensures { DescribedTextsAreKept }
{}
