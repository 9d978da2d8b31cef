// Laws of comments.
ghost use Rattle.script_notes.specs.Laws.{LinesAreHeads, NotingsAreInWindow, NotingsAreTyped, NotingsGoOn, WhyIsExact, WhyOfLinesIsExact};
ghost use Rattle.script_notes.specs.Whys.{WordsArePrinting};

/// The law that the words that say why a line is at fault are printing characters of ASCII, so that none of them ends a line.
pub fn comments_are_printing()
    ensures { WordsArePrinting }
{}

/// The laws that there is a reason exactly where fields are no command and no outcome in their place, and where they are no item; that so
/// it is of lines; and that a line is read as the head that it gives, and then the items of a day.
pub fn why_is_exact()
    ensures fields { WhyIsExact }
    ensures lines { WhyOfLinesIsExact }
    ensures heads { LinesAreHeads }
{}

/// The laws that the notings ahead of a reader are the first, as [`crate::next_noting`] reads it, and then those of what is ahead behind
/// it; that each edit among them has numbers as wide as their fields, and texts that may be kept; and that each tick is at a moment that
/// 16 bits of days can say.
pub fn notings_go_on()
    ensures on { NotingsGoOn }
    ensures typed { NotingsAreTyped }
    ensures window { NotingsAreInWindow }
{}
