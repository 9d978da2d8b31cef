// The program tables, both ways.
ghost use Rattle.std.specs.Prelude.{IsTrue};
ghost use Rattle.std.specs.List.{All};
ghost use Rattle.table_bodies.specs.Pat.{HasPid};
ghost use Rattle.table_bodies.specs.Pmt.{IsWritable};

use guide_model::{Component, RawDescs};
use row_lines::{Row, code_in, each_word, put_code, put_made, put_read, say};
use si_base::Items;
use std::fmt::Write;
use table_bodies::{HeardPmt, PatEntry, Pmt, read_pat, read_pmt, write_pat, write_pmt};

// A program and a PID, as `101:256`.
fn program_in(row: &mut Row, word: &str) -> PatEntry {
    let (program, pid) = word.split_once(':').unwrap_or((word, ""));
    PatEntry {
        program: row.short_in(program),
        pid: row.short_in(pid),
    }
}

// Whether each PID has 13 bits.
fn have_pids(entries: &[PatEntry]) -> bool
    ensures { IsTrue result → All HasPid entries.now }
{
    entries.iter().all(|entry| entry.pid < 8192)
}

/// `write_pat PROGRAM:PID ..`.
pub fn write_programs(row: &mut Row) {
    let entries = each_word(row, program_in);
    if !have_pids(&entries) {
        return row.refuse();
    }
    put_made(row, write_pat(row.alloc(), &entries));
}

/// `read_pat BYTES`.
pub fn read_programs(row: &mut Row) {
    let body = row.bytes();
    let read = read_pat(row.alloc(), &body);
    put_read(row, read, " none", put_programs);
}

fn put_programs(row: &mut Row, entries: &Items<PatEntry>) {
    for entry in entries.as_slice() {
        say!(row; " {}:{}", entry.program, entry.pid);
    }
    row.put(";");
}

// A component: its stream_type, its PID, and its language or `-`, as `3:514:eng`.
fn component_in(row: &mut Row, word: &str) -> Component {
    let (kind, rest) = word.split_once(':').unwrap_or((word, ""));
    let (pid, language) = rest.split_once(':').unwrap_or((rest, ""));
    Component {
        stream_type: row.small_in(kind),
        pid: row.short_in(pid),
        language: if language == "-" {
            None
        } else {
            Some(code_in(row, language))
        },
        descriptors: RawDescs::new(row.alloc()),
    }
}

// Whether the PID of a component has 13 bits, and it has no further descriptors.
fn is_plain(component: &Component) -> bool
    ensures { IsTrue result → IsWritable component.now }
{
    component.pid < 8192 && component.descriptors.is_empty()
}

fn are_plain(components: &[Component]) -> bool
    ensures { IsTrue result → All IsWritable components.now }
{
    components.iter().all(is_plain)
}

/// `write_pmt PCR_PID TYPE:PID:LANGUAGE ..`.
pub fn write_program(row: &mut Row) {
    let pcr_pid = row.short();
    let pmt = Pmt {
        pcr_pid,
        descriptors: RawDescs::new(row.alloc()),
        components: Items::of(each_word(row, component_in)),
    };
    if pcr_pid >= 8192 || !are_plain(pmt.components.as_slice()) {
        return row.refuse();
    }
    put_made(row, write_pmt(row.alloc(), &pmt));
}

/// `read_pmt BYTES`.
pub fn read_program(row: &mut Row) {
    let body = row.bytes();
    let read = read_pmt(row.alloc(), &body);
    put_read(row, read, " none", put_pmt);
}

fn put_pmt(row: &mut Row, pmt: &HeardPmt) {
    say!(row; " {}", pmt.pcr_pid);
    for component in pmt.components.as_slice() {
        say!(row; " {}:{}", component.stream_type, component.pid);
        match component.language {
            Some(language) => put_code(row, &language),
            None => row.put(" -"),
        }
    }
    row.put(";");
}
