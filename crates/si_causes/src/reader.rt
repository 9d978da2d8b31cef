// A reader of lines.
ghost use Rattle.std.specs.Prelude.{◌≡◌, ◌-◌, ◌^◌, ◌<◌, ◌≤◌, true, false, [], ℕ, List, Option, None, Some, Ok, Err, IfOk, IfSome};
ghost use Rattle.std.specs.Io.KnownBytes.{IsAtEnd};
ghost use Rattle.si_causes.specs.Lines.{has_end};
ghost use Rattle.si_causes.specs.Reading.{NextCame, GivesLine, IsQuietUnlessFailed, Falls, fresh, fresh_to, room, text_left};
ghost use Rattle.si_causes.specs.Text.{lines_left};

use crate::causes::Source;
use crate::gather::{LineBuffer, LineFound, gather};
use crate::line::Line;
use crate::read_buffer::ReadBuffer;
use crate::stop::ReadStop;
use std::alloc::{AllocError, Global};
use std::marker::Model;

// How many bytes a text may have where no other limit is named.
const TEXT_LIMIT: u64 = 67_108_864;

/// A reader of the lines of a source.
///
/// A line ends with LF or with the end of the source, and one CR before that end is not part of it. Behind an LF
/// at the end there is no further line. A line is shown up to its 16,385th byte, so that a caller can tell one that is
/// longer than 16,384 bytes. The text may have 67,108,864 bytes, or another limit, LFs and CRs included.
///
/// Contracts see a reader as the record `Reading`: the source, the bytes that it gave and that stand in no line yet,
/// how many bytes stand in the lines handed out, how many lines these are, the last of them, whether the source told
/// its end, why there are no more lines, and how many bytes the text may have.
#[derive(Drop)]
pub struct LineReader<S: Source> {
    source: S,
    held: LineBuffer,
    passed: u64,
    number: u64,
    line: Line,
    ended: bool,
    stop: Option<ReadStop>,
    limit: u64,
}

impl<S: Source> Model for LineReader<S> {
    ghost use Rattle.std.specs.Prelude.{◌≡◌, ◌+◌, ◌-◌, ◌^◌, ◌<◌, ◌≤◌, true, length, [], None};
    ghost use Rattle.std.specs.Io.KnownBytes.{IsAtEnd};
    ghost use Rattle.si_causes.specs.Reading.{Reading};

    ghost Value = { Reading S };

    ghost view = { λ r. record {
      source = r.source;
      held = r.held;
      passed = r.passed;
      number = r.number;
      line = r.line;
      ended = r.ended;
      stop = r.stop;
      limit = r.limit;
    } };

    ghost invariant = { λ r. (r.passed + length r.held ≤ r.limit) × (r.limit < 2 ^ 64 - 1) × (r.number ≤ r.passed)
        × (r.ended ≡ true → (r.held ≡ []) × IsAtEnd (S.left r.source)) };
}

impl<S: Source> LineReader<S> {
    /// A reader at the front of its source, with room for 65,536 bytes and for one line. Want of memory gives the
    /// source up.
    pub fn open(alloc: Global, source: S) -> Result<LineReader<S>, AllocError>
        ensures { IfOk result (λ reader. reader ≡ fresh source) }
    {
        LineReader::open_to(alloc, source, TEXT_LIMIT)
    }

    /// As `open`, with another limit of the text's bytes. It is below 18,446,744,073,709,551,615, so that also the line behind
    /// the last has a number.
    pub fn open_to(alloc: Global, source: S, limit: u64) -> Result<LineReader<S>, AllocError>
        requires { limit < 2 ^ 64 - 1 }
        ensures { IfOk result (λ reader. reader ≡ fresh_to limit source) }
    {
        let held = ReadBuffer::new(alloc)?;
        let line = Line::new(alloc)?;
        Ok(LineReader {
            source,
            held,
            passed: 0,
            number: 0,
            line,
            ended: false,
            stop: None,
            limit,
        })
    }

    /// Goes on to the next line and gives its number, from 1 on, or `None` exactly at the end.
    ///
    /// `TooLong` comes exactly where the source gave a byte behind its limit before the line was whole.
    /// `Failed` comes only where a read of the source failed in this call; any other answer leaves the source's count of
    /// faults as it was. After either stop each later call answers the same. The source is read only where the bytes
    /// that it gave hold no further whole line. It takes no memory.
    pub fn next(&mut self) -> Result<Option<u64>, ReadStop>
        ensures lines { self.old.stop ≡ None → (text : List ℕ) → text_left S.left self.old ≡ Some text
            → GivesLine S.left self.old self.new (lines_left (room self.old) text) result }
        ensures came { self.old.stop ≡ None → NextCame S.left S.faults self.old self.new result }
        ensures falls { Falls self.old self.new result }
        ensures end { result ≡ Ok None → IsAtEnd (S.left self.new.source) }
        ensures over { self.old.stop ≡ None → self.old.ended ≡ true
            → (result ≡ Ok None) × (self.new ≡ self.old) }
        ensures sticky { IfSome self.old.stop (λ stop. (result ≡ Err stop) × (self.new ≡ self.old)) }
        ensures lazy { has_end self.old.held ≡ true → self.new.source ≡ self.old.source }
        ensures later { S.faults self.old.source ≤ S.faults self.new.source }
        ensures quiet { IsQuietUnlessFailed (S.faults self.old.source) (S.faults self.new.source) result }
        ensures same { S.same self.old.source self.new.source }
        ensures limit { self.new.limit ≡ self.old.limit }
    {
        if let Some(stop) = self.stop {
            return Err(stop);
        }
        if self.ended {
            return Ok(None);
        }
        self.line.clear();
        let mut taken = self.passed + self.held.bytes().len() as u64;
        match gather(
            &mut self.source,
            &mut self.held,
            &mut self.line,
            &mut taken,
            self.limit,
        ) {
            Ok(LineFound::End) => {
                self.ended = true;
                Ok(None)
            }
            Ok(LineFound::Last) => {
                self.ended = true;
                self.passed = taken;
                self.line.finish();
                self.number += 1;
                Ok(Some(self.number))
            }
            Ok(LineFound::Line) => {
                self.passed = taken - self.held.bytes().len() as u64;
                self.line.finish();
                self.number += 1;
                Ok(Some(self.number))
            }
            Err(stop) => {
                self.stop = Some(stop);
                Err(stop)
            }
        }
    }

    /// The line that `next` gave last, without its end; of a line that is longer than 16,384 bytes the first 16,385.
    pub fn line(&self) -> &[u8]
        ensures { result.now ≡ self.now.line }
    {
        self.line.bytes()
    }

    /// How many lines `next` gave: the number of the last of them. It takes no memory.
    pub fn number(&self) -> u64
        ensures value { result ≡ self.now.number }
        ensures most { result < 2 ^ 64 - 1 }
    {
        self.number
    }

    /// Gives the source back. It takes no memory.
    pub fn close(self) -> S
        ensures { result ≡ self.source }
    {
        self.source
    }
}
