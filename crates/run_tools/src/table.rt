// The loop over the rows of a program of whole runs.
use crate::bench::Bench;
use row_lines::{Buffer, Sheet, World};
use si_causes::{Opener, Source};
use std::alloc::Global;
use std::io::{self, Read};
use std::marker::Send;
use std::rt::Files;
use std_streams::Opening;

// The bytes of a file.
fn read_file<W: Files>(alloc: Global, files: &mut Opening<W>, name: &str) -> Option<Buffer>
where
    W::File: Read + Drop + Send,
{
    let mut source = files.open(name).ok()?;
    let mut bytes = Buffer::open(alloc);
    let mut piece = [0; 4_096];
    for _ in 0..1_000_000u32 {
        let count = source.read(&mut piece).ok()?;
        if count == 0 {
            break;
        }
        bytes.put(piece.get(..count)?);
    }
    files.close(source);
    Some(bytes)
}

// Takes the files of data with these names.
fn shelve_all<W: World + Files>(rt: &W, names: &[&str], bench: &mut Bench<W>) -> io::Result<()>
where
    W::File: Read + Drop + Send,
{
    let mut files = Opening::open(rt);
    for name in names {
        match read_file(bench.alloc, &mut files, name) {
            Some(file) => bench.shelve(name, file)?,
            None => return Err(io::Error::from(io::ErrorKind::NotFound)),
        }
    }
    Ok(())
}

// Answers the rows of the input.
fn answer_rows<W: World + Input + Print + AllocGlobal, F: Fn(&mut Bench<W>, &str) -> Option<()>>(
    rt: &W,
    bench: &mut Bench<W>,
    sheet: &mut Sheet,
    tell: F,
) -> io::Result<()>
    requires { F.IsAlwaysCallable tell }
{
    for line in rt.lines(rt.alloc()) {
        if sheet.take(line?.as_str()) {
            bench.answer.clear();
            let told = tell(&mut *bench, sheet.row());
            let is_row = told.is_some() && !bench.lacks();
            sheet.compare(is_row, &bench.answer);
        }
        print!(rt; "{}", sheet.told())?;
    }
    Ok(())
}

// Answers the rows of the input over the files of data with these names.
fn answer_sheet<
    W: World + Files + Input + Print + AllocGlobal,
    F: Fn(&mut Bench<W>, &str) -> Option<()>,
>(rt: &W, names: &[&str], sheet: &mut Sheet, tell: F) -> io::Result<()>
where
    W::File: Read + Drop + Send,
    requires { F.IsAlwaysCallable tell }
{
    let mut bench = Bench::open(rt, rt.alloc())?;
    shelve_all(rt, names, &mut bench)?;
    answer_rows(rt, &mut bench, sheet, tell)
}

/// Answers the rows of the input, and prints those that fail, and how many there are.
///
/// `names` are the files of data that rows may name. `tell` fills in the answer of a row; None where
/// it is no row. An error comes where reading or printing fails, where memory is wanting, and at the
/// end where a row failed.
pub fn run_sheet<
    W: World + Files + Input + Print + AllocGlobal,
    F: Fn(&mut Bench<W>, &str) -> Option<()>,
>(rt: &W, names: &[&str], tell: F) -> io::Result<()>
where
    W::File: Read + Drop + Send,
    requires { F.IsAlwaysCallable tell }
{
    let mut sheet = Sheet::open(rt.alloc());
    answer_sheet(rt, names, &mut sheet, tell)?;
    sheet.end();
    print!(rt; "{}", sheet.told())?;
    sheet.ended()
}
