// The items of a script, and its lines at fault.
use crate::why::Why;
use script_lines::ScriptItem;

/// An item of a script, or a line at fault: its number, and why it is.
#[derive(Drop)]
pub enum Noting {
    Item(ScriptItem),
    Bad(u64, Why),
}

/// What a reader of notings holds for the next call.
#[derive(Clone, Copy, Drop)]
pub enum Held {
    Nothing,
    /// The attached lines that come next are passed over.
    Attached,
    /// The line that the reader gave last stood in place of an item, and is read as a command.
    Line,
    /// The lines have ended.
    Ended,
}
