// How often each option of `live` stands among words.
ghost use Rattle.std.specs.Prelude.{◌≡◌, ◌<◌, ◌++◌, ◌∷◌, [], List, IfNone, IfSome, None, is_some, length, option_and_then};
ghost use Rattle.command_words.specs.Commands.{option_of as option_in, texts};
ghost use Rattle.command_words.specs.Counts.{Counted, HasUses};
ghost use Rattle.command_words.specs.Grammar.{Setting, live_of, settings_of};

use crate::setting::{LiveOption, first_option, option_of};

// How often each option came; of more than 255 times just 255.
#[derive(Clone, Copy)]
struct Uses {
    feeds: u8,
    cycles: u8,
    joins: u8,
    views: u8,
}

impl Uses {
    fn none() -> Uses
        ensures { Counted [] result }
    {
        Uses {
            feeds: 0,
            cycles: 0,
            joins: 0,
            views: 0,
        }
    }

    // One option more.
    fn add(&mut self, option: LiveOption)
        ensures { (before : List Setting) (setting : Setting) → Counted before self.old
            → option ≡ option_in setting → Counted (before ++ setting ∷ []) self.new }
    {
        match option {
            LiveOption::Feed => self.feeds = self.feeds.saturating_add(1),
            LiveOption::Cycles => self.cycles = self.cycles.saturating_add(1),
            LiveOption::Join => self.joins = self.joins.saturating_add(1),
            LiveOption::View => self.views = self.views.saturating_add(1),
        }
    }

    // Whether they are those of a `live`.
    fn are_live(self) -> bool
        ensures { (settings : List Setting) → Counted settings self → result ≡ is_some (live_of settings) }
    {
        let feeds = 1 <= self.feeds && self.feeds <= 16;
        feeds && self.cycles == 1 && self.joins == 1 && self.views <= 8
    }
}

// How often each option stands among the words, where they are options.
fn uses_of(words: &[String]) -> Option<Uses>
    ensures some { IfSome result (HasUses (texts words.now)) }
    ensures none { IfNone result (settings_of (texts words.now) ≡ None) }
{
    let mut uses = Uses::none();
    let mut rest = words;
    while !rest.is_empty() {
        let (name, value, behind) = first_option(rest)?;
        uses.add(option_of(name, value)?);
        rest = behind;
    }
    Some(uses)
}

// Whether the words are the options of `live`.
pub(crate) fn are_live(words: &[String]) -> bool
    ensures { result ≡ is_some (option_and_then live_of (settings_of (texts words.now))) }
{
    match uses_of(words) {
        Some(uses) => uses.are_live(),
        None => false,
    }
}
