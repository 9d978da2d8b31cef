// Laws of what is completed of an air.
ghost use Rattle.air_laws.specs.CoherenceLaws.{AirIsCoherent, FrontIsCoherent, HeardKeysAreCarried};

/// Of an air of airings that can be heard, whatever is completed of any key, at any of its sections that count, of the packets from
/// any one on and before any other, is the content of that key in one airing whose cycle has a packet among these, under the version
/// that it has there. Contents may change any number of times, and keys vanish and return; how densely sections share packets, and how often and in
/// which order a cycle sends them, is left open. The same holds of what was sent of an air that was cut at any byte.
pub fn airs_are_coherent()
    ensures whole { AirIsCoherent }
    ensures front { FrontIsCoherent }
{}

/// Of such an air, also where it was cut at any byte, whichever packets are heard: what counts has only keys that the airings carry.
pub fn heard_keys_are_carried()
    ensures { HeardKeysAreCarried }
{}
