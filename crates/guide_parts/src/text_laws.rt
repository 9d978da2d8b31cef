// Laws of the text of parts.
ghost use Rattle.guide_parts.specs.PartTexts.{WholeTextIsListen};

/// A whole screen has one text: as a guide, and as a guide of parts with nothing wanting.
pub fn whole_text_is_listen()
    ensures { WholeTextIsListen }
{}
