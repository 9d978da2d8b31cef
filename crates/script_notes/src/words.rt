// The words of lines, which are written and read by one table.
ghost use Rattle.std.specs.Prelude.{◌≡◌, option_copied};
ghost use Rattle.std.specs.List.{find};
ghost use Rattle.input_lines.specs.Numbers.{is_word as is_this_word};
ghost use Rattle.script_notes.specs.Faults.{word_named as the_word};
ghost use Rattle.script_notes.specs.Whys.{word_text};

use crate::why::LineWord;
use input_lines::is_word;

pub(crate) fn word_text(word: LineWord) -> &'static str
    ensures { result.now ≡ word_text word }
{
    match word {
        LineWord::Publish => "publish",
        LineWord::Swap => "swap",
        LineWord::Tick => "tick",
        LineWord::Put => "put",
        LineWord::Withdraw => "withdraw",
        LineWord::Clear => "clear",
        LineWord::Name => "name",
        LineWord::Day => "day",
        LineWord::Item => "item",
    }
}

// The first of these words that the field is.
fn first_named<'a>(field: &str, words: &'a [LineWord]) -> Option<&'a LineWord>
    ensures { option_copied result ≡ find (λ (w : LineWord). is_this_word (word_text w) field.now) words.now }
{
    words.iter().find(
        |word: &&LineWord| -> bool
            ensures { result ≡ is_this_word (word_text word.now.now) field.entry.now }
        { is_word(field, word_text(**word)) },
    )
}

/// The word that a field is.
#[tactic(auto, unfolding(crate::specs::Faults::word_named))]
pub(crate) fn word_named(field: &str) -> Option<LineWord>
    ensures { result ≡ the_word field.now }
{
    let words = [
        LineWord::Publish,
        LineWord::Swap,
        LineWord::Tick,
        LineWord::Put,
        LineWord::Withdraw,
        LineWord::Clear,
        LineWord::Name,
        LineWord::Day,
        LineWord::Item,
    ];
    first_named(field, &words).copied()
}
