// One line of fields.
ghost use Rattle.std.specs.Prelude.{◌≡◌, ◌++◌, ◌∷◌, [], OnOk};
ghost use Rattle.csv.specs.Writing.{default_writer, escaped, field_text, needs_quotes, quoted};

use std::alloc::{AllocError, Global};
use std::marker::Model;

/// The bytes of most lines.
const ROOM: usize = 512;

/// A line in the making: fields, as csv writes those of a record. It parts them by commas, and quotes those that call for it.
#[derive(Drop)]
pub struct LineWriter {
    text: Vec<u8>,
    fields: u8,
}

impl Model for LineWriter {
    ghost use Rattle.journal_text.specs.Lines.{Line};

    ghost Value = { Line };

    ghost view = { λ r. record { text = r.text.items; fields = r.fields } };
}

impl LineWriter {
    ghost use Rattle.std.specs.Prelude.{◌≡◌, ◌++◌, OnOk, decimal};
    ghost use Rattle.journal_text.specs.Lines.{no_fields, and_field, ended, IsOpenFor};

    /// A line without a field, with room for its text where there is memory for it.
    pub fn open(alloc: Global) -> LineWriter
        ensures { result ≡ no_fields }
    {
        LineWriter {
            text: room(alloc),
            fields: 0,
        }
    }

    /// Adds a field.
    pub fn field(&mut self, bytes: &[u8]) -> Result<(), AllocError>
        requires { IsOpenFor 0 self.old }
        ensures { OnOk result (self.new ≡ and_field self.old bytes.now) }
    {
        if self.fields > 0 {
            self.text.push(b',')?;
        }
        put_field(&mut self.text, bytes)?;
        self.fields += 1;
        Ok(())
    }

    /// Adds a number in decimal digits.
    pub fn number(&mut self, alloc: Global, n: u64) -> Result<(), AllocError>
        requires { IsOpenFor 0 self.old }
        ensures { OnOk result (self.new ≡ and_field self.old (decimal n)) }
    {
        let text = n.to_string(alloc)?;
        self.field(text.as_bytes())
    }

    /// Appends the line, with LF at its end.
    pub fn end(self, out: &mut Vec<u8>) -> Result<(), AllocError>
        ensures { OnOk result (out.new.items ≡ out.old.items ++ ended self) }
    {
        out.extend_from_slice(&self.text)?;
        out.extend_from_slice(b"\n")
    }
}

// No byte, with room for those of most lines where there is memory for them.
fn room(alloc: Global) -> Vec<u8>
    ensures { result.items ≡ [] }
{
    match Vec::with_capacity(alloc, ROOM) {
        Ok(text) => text,
        Err(_) => Vec::new(alloc),
    }
}

// Whether csv quotes a field.
fn needs_quotes(bytes: &[u8]) -> bool
    ensures { result ≡ needs_quotes default_writer bytes.now }
{
    bytes
        .iter()
        .any(|b| matches!(*b, b',' | b'"' | b'\r' | b'\n'))
}

// Appends a field, in quotes where it calls for them.
fn put_field(out: &mut Vec<u8>, bytes: &[u8]) -> Result<(), AllocError>
    ensures { OnOk result (out.new.items ≡ out.old.items ++ field_text default_writer bytes.now) }
{
    if needs_quotes(bytes) {
        put_quoted(out, bytes)
    } else {
        out.extend_from_slice(bytes)
    }
}

// Appends a field in quotes, each quote in it twice.
fn put_quoted(out: &mut Vec<u8>, bytes: &[u8]) -> Result<(), AllocError>
    ensures { OnOk result (out.new.items ≡ out.old.items ++ quoted default_writer bytes.now) }
{
    out.push(b'"')?;
    for b in bytes {
        put_escaped(out, *b)?;
    }
    out.push(b'"')?;
    Ok(())
}

// Appends a byte of a field in quotes.
fn put_escaped(out: &mut Vec<u8>, b: u8) -> Result<(), AllocError>
    ensures { OnOk result (out.new.items ≡ out.old.items ++ escaped default_writer (b ∷ [])) }
{
    if b == b'"' {
        out.push(b'"')?;
    }
    out.push(b)?;
    Ok(())
}
