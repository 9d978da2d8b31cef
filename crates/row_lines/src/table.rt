// The loop over the rows of a program.
use crate::buffer::Buffer;
use crate::line::Row;
use crate::sheet::Sheet;
use std::alloc::Global;
use std::io;

/// Answers the rows of the input (`Sheet`), and prints those that fail, and how many there are.
///
/// `answer` reads what stands before ` = ` and puts what it gives; what it cannot read is `no row`. An
/// error comes where reading or printing fails, where memory is wanting, and at the end where a row
/// failed.
pub fn run_rows<R: Input + Print + AllocGlobal, F: Fn(&mut Row)>(
    rt: &R,
    answer: F,
) -> io::Result<()>
    requires { F.IsAlwaysCallable answer }
{
    let mut sheet = Sheet::open(rt.alloc());
    answer_rows(rt, &mut sheet, answer)?;
    sheet.end();
    print!(rt; "{}", sheet.told())?;
    sheet.ended()
}

fn answer_rows<R: Input + Print + AllocGlobal, F: Fn(&mut Row)>(
    rt: &R,
    sheet: &mut Sheet,
    answer: F,
) -> io::Result<()>
    requires { F.IsAlwaysCallable answer }
{
    for line in rt.lines(rt.alloc()) {
        if sheet.take(line?.as_str()) {
            let answer = answered(rt.alloc(), sheet.row(), &answer);
            sheet.compare(true, &answer);
        }
        print!(rt; "{}", sheet.told())?;
    }
    Ok(())
}

// What a row gives.
fn answered<F: Fn(&mut Row)>(alloc: Global, line: &str, answer: &F) -> Buffer
    requires { F.IsAlwaysCallable answer.now }
{
    let mut row = Row::open(alloc, line);
    answer(&mut row);
    row.end()
}
