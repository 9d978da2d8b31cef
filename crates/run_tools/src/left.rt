// A run of the top call over sources, files and sinks in memory.
use crate::faults::Faults;
use epg_cli::{Status, run};
use row_lines::{Buffer, Holding, World, text_of};
use si_causes::{MemOpener, MemSink, MemSource};
use std::alloc::{AllocError, Global};

/// What a run meets: its words, with slashes between, its input, its files, by the paths 1, 2, .., what fails, and its gate.
#[derive(Clone, Copy)]
pub struct Outside<'a> {
    pub words: &'a str,
    pub input: &'a [u8],
    pub files: &'a [Buffer],
    pub faults: Faults,
    pub gate: &'a Holding,
}

/// What the last run left, and the ends that it was made with.
#[derive(Drop)]
pub struct Left {
    alloc: Global,
    status: Status,
    words: Vec<String>,
    opener: MemOpener,
    input: MemSource,
    air: MemSink,
    report: MemSink,
    lacks: bool,
}

fn words_of(alloc: Global, words: &str) -> Result<Vec<String>, AllocError> {
    let mut all = Vec::new(alloc);
    if words == "-" {
        return Ok(all);
    }
    for word in words.split('/') {
        all.push(String::from_str(alloc, word)?)?;
    }
    Ok(all)
}

fn file_of(alloc: Global, number: u64, bytes: &[u8]) -> Result<(String, Vec<u8>), AllocError> {
    let path = number.to_string(alloc)?;
    Ok((path, Vec::from_slice(alloc, bytes)?))
}

fn opener_of(alloc: Global, files: &[Buffer], faults: &Faults) -> Result<MemOpener, AllocError> {
    let fails = vec![in alloc; faults.opening; 1]?;
    let mut all = Vec::new(alloc);
    let mut number = 0u64;
    for file in files {
        number = number.saturating_add(1);
        all.push(file_of(alloc, number, file.as_slice())?)?;
    }
    Ok(MemOpener::open_with(alloc, all, fails, Some(faults.read)))
}

fn source_of(
    alloc: Global,
    bytes: &[u8],
    piece: usize,
    fault: u64,
) -> Result<MemSource, AllocError> {
    let bytes = Vec::from_slice(alloc, bytes)?;
    let fails = vec![in alloc; fault; 1]?;
    Ok(MemSource::open(bytes, piece.max(1), fails))
}

fn sink_of(alloc: Global, piece: usize, fault: u64) -> Result<MemSink, AllocError> {
    let fails = vec![in alloc; fault; 1]?;
    Ok(MemSink::open(alloc, piece.max(1), fails))
}

impl Left {
    /// What no run left.
    pub fn open(alloc: Global) -> Left {
        Left {
            alloc,
            status: Status::Done,
            words: Vec::new(alloc),
            opener: MemOpener::open_with(alloc, Vec::new(alloc), Vec::new(alloc), None),
            input: MemSource::open(Vec::new(alloc), 1, Vec::new(alloc)),
            air: MemSink::open(alloc, 1, Vec::new(alloc)),
            report: MemSink::open(alloc, 1, Vec::new(alloc)),
            lacks: false,
        }
    }

    /// How the run ended.
    pub fn status(&self) -> Status {
        self.status
    }

    /// The exit status of the run.
    pub fn code(&self) -> u8 {
        self.status.code()
    }

    /// What the air took.
    pub fn air(&self) -> &[u8] {
        self.air.taken()
    }

    /// What the report took.
    pub fn report(&self) -> &[u8] {
        self.report.taken()
    }

    /// The report as a text.
    pub fn report_text(&self) -> &str {
        text_of(self.report.taken())
    }

    /// Whether memory was wanting for a run.
    pub fn lacks(&self) -> bool {
        self.lacks
    }

    // Makes the ends of a run.
    fn make(&mut self, outside: &Outside) -> Result<(), AllocError> {
        let (alloc, faults) = (self.alloc, &outside.faults);
        self.words = words_of(alloc, outside.words)?;
        self.opener = opener_of(alloc, outside.files, faults)?;
        self.input = source_of(alloc, outside.input, faults.piece, faults.input)?;
        self.air = sink_of(alloc, faults.piece, faults.air)?;
        self.report = sink_of(alloc, faults.piece, faults.report)?;
        Ok(())
    }

    /// Runs the top call over this.
    pub fn run<W: World>(&mut self, rt: &W, outside: &Outside) {
        let done = self.make(outside);
        self.lacks = self.lacks || done.is_err();
        self.status = run(
            rt,
            self.alloc,
            &self.words,
            &mut self.opener,
            &mut self.input,
            &mut self.air,
            &mut self.report,
            outside.gate,
        );
    }
}
