// The next line that is a record.
ghost use Rattle.std.specs.Prelude.{◌≡◌};
ghost use Rattle.input_lines.specs.Lines.{is_passed};
ghost use Rattle.input_lines.specs.Records.{NextRecord};

use si_causes::{LineReader, ReadStop, Source};

/// Whether a line is passed over: one without a byte, or whose first byte is `#`. It takes no memory.
pub fn passes_over(line: &[u8]) -> bool
    ensures { result ≡ is_passed line.now }
{
    match line.first() {
        Some(first) => *first == b'#',
        None => true,
    }
}

/// Goes on to the next line that is not passed over and gives its number, in which the lines passed over count, or
/// `None` exactly at the end. It takes no memory.
///
/// `TooLong` and `Failed` come as from [`LineReader::next`]: `Failed` only where a read of the source failed in this
/// call, and then each line that was whole in the bytes taken was passed over.
pub fn next_record_line<S: Source>(lines: &mut LineReader<S>) -> Result<Option<u64>, ReadStop>
    ensures { NextRecord S.left S.faults S.same lines.old lines.new result }
{
    'lines: loop {
        match lines.next() {
            Ok(Some(number)) => {
                if !passes_over(lines.line()) {
                    return Ok(Some(number));
                }
            }
            Ok(None) => return Ok(None),
            Err(stop) => return Err(stop),
        }
    }
}
