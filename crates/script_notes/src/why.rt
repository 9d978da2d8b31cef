// The reasons why a script line is at fault.
use journal_model::Outcome;

/// The word that says what a line is, after a caller's number and `feed,N`.
#[derive(Clone, Copy, Drop)]
pub enum LineWord {
    Publish,
    Swap,
    Tick,
    Put,
    Withdraw,
    Clear,
    Name,
    Day,
    Item,
}

/// A field that is read as a value.
#[derive(Clone, Copy, Drop)]
pub enum FieldName {
    Moment,
    Feed,
    Service,
    Event,
    Start,
    Duration,
    Date,
    Count,
    Country,
    Rating,
    Genres,
    Descriptors,
}

/// Why a script line is at fault in its place. A field has its number in the line, from 1.
#[derive(Clone, Copy, Drop)]
pub enum Why {
    /// The line has more than 16,384 bytes.
    TooLong,
    NotUtf8,
    ControlCharacter,
    NoFields,
    /// An outcome line stands where no command came before.
    AfterNoCommand,
    NoOutcome,
    /// The line keeps the first outcome, and the desk's is the second.
    Disagrees(Outcome, Outcome),
    /// An edit's word stands outside `feed,N`, or an item's outside a day.
    Misplaced(LineWord),
    NoCommand(u64),
    NoEdit(u64),
    /// So many fields stand after the word, which takes another number of them.
    FieldCount(LineWord, u64),
    BadField(FieldName, u64),
    /// No item stands in place of one.
    NoItem,
}
