// Laws of what is heard.
ghost use Rattle.guide_screen.specs.Screen.{WantingIsNeeds, WholeNeedsNothing};

/// A receiver shows the whole screen exactly where there is no need that is not met; otherwise it tells its needs, of which there is
/// one at least.
pub fn screens_need_nothing()
    ensures wanting { WantingIsNeeds }
    ensures whole { WholeNeedsNothing }
{}
