// The words of fields, which are written and read by one table.
ghost use Rattle.std.specs.Prelude.{◌≡◌, option_copied};
ghost use Rattle.std.specs.List.{find};
ghost use Rattle.input_lines.specs.Numbers.{is_word as is_this_word};
ghost use Rattle.script_lines.specs.Outcomes.{field_named, field_word, plain_fields};

use input_lines::is_word;
use journal_model::Field;

/// The word of a field. It takes no memory.
pub fn field_word(field: Field) -> &'static str
    ensures { result.now ≡ field_word field }
{
    match field {
        Field::Start => "start",
        Field::Duration => "duration",
        Field::Window => "window",
        Field::Language => "language",
        Field::Name => "name",
        Field::Short => "short",
        Field::Extended => "extended",
        Field::Country => "country",
        Field::Rating => "rating",
        Field::Genre => "genre",
        Field::Descriptor => "descriptor",
        Field::Provider => "provider",
        Field::ServiceName => "servicename",
        Field::Count(_) => "count",
        Field::Segment(_) => "segment",
    }
}

// The first of these fields that has this word.
fn first_named<'a>(word: &str, fields: &'a [Field]) -> Option<&'a Field>
    ensures { option_copied result ≡ field_named word.now fields.now }
{
    fields.iter().find(
        |field: &&Field| -> bool
            ensures { result ≡ is_this_word (field_word field.now.now) word.entry.now }
        { is_word(word, field_word(**field)) },
    )
}

/// The field of this word, of those that have no number.
pub(crate) fn plain_field(word: &str) -> Option<Field>
    ensures { result ≡ field_named word.now plain_fields }
{
    let fields = [
        Field::Start,
        Field::Duration,
        Field::Window,
        Field::Language,
        Field::Name,
        Field::Short,
        Field::Extended,
        Field::Country,
        Field::Rating,
        Field::Genre,
        Field::Descriptor,
        Field::Provider,
        Field::ServiceName,
    ];
    first_named(word, &fields).copied()
}
