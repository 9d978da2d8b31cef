// Laws of the written and the read bodies.
ghost use Rattle.std.specs.Prelude.{◌≡◌, ◌<◌, length};
ghost use Rattle.table_bodies.specs.Eit.{EntryHasItsSize, EitReadsBack, IsTyped};

use guide_model::Event;

/// An entry has the size that `event_len` of `descriptors` gives, and reading a written body gives back its head and its
/// events, all texts as `Text`.
pub fn written_events_read_back()
    ensures size { EntryHasItsSize }
    ensures reads_back { EitReadsBack }
{}

/// An event has what each value of its type has, which reading back asks for.
pub fn events_are_typed(event: &Event)
    ensures { IsTyped event.now }
{
    is_word(event.id);
    is_code(&event.language);
    let _name = event.name.as_str();
    let _short = event.short.as_str();
    let _extended = event.extended.as_str();
    if let Some(rating) = event.rating {
        is_code(&rating.country);
    }
}

fn is_word(number: u16)
    ensures { number < 65536 }
{}

fn is_code(letters: &[u8; 3])
    ensures { length letters.now ≡ 3 }
{}
