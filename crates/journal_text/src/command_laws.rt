// What is written reads back.
ghost use Rattle.journal_text.specs.CommandBack.{CommandsReadBack, RowsReadBack};

/// The law that a line of fields reads back as the fields, whatever text stands behind it: the fields are texts, at least two,
/// the first may begin a line, and the line has at most 16,384 bytes.
pub fn rows_read_back()
    ensures rows { RowsReadBack }
{}

/// The law that the text of a readable command reads back as the command, whatever text stands behind it.
pub fn commands_read_back()
    ensures commands { CommandsReadBack }
{}
