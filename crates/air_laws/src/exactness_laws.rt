// Laws of what a receiver has of the airing on air.
ghost use Rattle.air_laws.specs.ExactnessLaws.{ContentsAreHeard, OnAirIsHeard};

/// Whatever was heard before, where all packets of a cycle are heard and behind it packets alone of cycles with the same sub-tables, the
/// content that is completed last of each key is the one that this cycle's airing carries.
pub fn contents_on_air_are_heard()
    ensures { ContentsAreHeard }
{}

/// Where besides all airings have one PAT, one NIT, one SDT of its transport_stream_id, and the same SDTs of other streams, what is heard has
/// these keys, and a moment. So a receiver has all that is on air.
pub fn what_is_on_air_is_heard()
    ensures { OnAirIsHeard }
{}
