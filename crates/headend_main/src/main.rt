//! The program `lepnugan`: standard input is the input, standard output the air, standard error the
//! report.
//!
//! It drops the first word, the program's name, calls `run` of `epg_cli`, and exits with the code
//! of the status. Words that are not valid text give `Usage`. `main` has no contract. Tested: one
//! stored run, from the standard streams to six packets.
#![tactic(auto)]

use epg_cli::{Status, run};
use si_causes::{OpenGate, write_all};
use std::env::{self, Env};
use std::io;
use std::process::ExitCode;
use std_streams::{Opening, ReaderSource, WriterSink};

// The words behind the program's name.
fn words(rt: &(impl Env + AllocGlobal)) -> io::Result<Vec<String>> {
    let mut words = env::args(rt)?;
    let _name = words.next();
    Ok(words.collect(rt.alloc())?)
}

fn main(rt: HostRuntime) -> ExitCode {
    let mut input = ReaderSource::open(rt.stdin());
    let mut air = WriterSink::open(rt.stdout());
    let mut report = WriterSink::open(rt.stderr());
    let words = match words(&rt) {
        Ok(words) => words,
        Err(error) if error.kind() == io::ErrorKind::OutOfMemory => {
            let _ = write_all(&mut report, b"fault: memory\n");
            return ExitCode::from(Status::Memory.code());
        }
        // Words that are no text are no command line, as no words are none.
        Err(_) => Vec::new(rt.alloc()),
    };
    let mut files = Opening::open(&rt);
    let status = run(
        &rt,
        rt.alloc(),
        &words,
        &mut files,
        &mut input,
        &mut air,
        &mut report,
        &OpenGate,
    );
    ExitCode::from(status.code())
}
