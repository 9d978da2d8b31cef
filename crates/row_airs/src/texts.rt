// The scripts of rows.
use row_lines::{Buffer, written_out};
use std::alloc::Global;

/// The first word of a text, and the rest of it.
pub fn cut(text: &str) -> (&str, &str) {
    text.split_once(' ').unwrap_or((text, ""))
}

/// The decimal number that a word of a row is.
pub fn number(word: &str) -> Option<usize> {
    word.parse::<usize>().ok()
}

/// The byte of hex digits that a word of a row is.
pub fn byte(word: &str) -> Option<u8> {
    u8::from_str_radix(word, 16).ok()
}

/// The lines at the front of a text that are all such.
pub fn front_lines<F: Fn(&str) -> bool>(text: &str, is_such: F) -> &str
    requires { F.IsAlwaysCallable is_such }
{
    let mut len = 0usize;
    for line in text.lines() {
        if !is_such(line) {
            break;
        }
        len = len.saturating_add(line.len()).saturating_add(1);
    }
    text.get(..len).unwrap_or(text)
}

/// The description at the front of a script, up to its line `end`.
pub fn description(script: &str) -> &str {
    match script.split_once("\nend\n") {
        Some((_, rest)) => script.strip_suffix(rest).unwrap_or(script),
        None => script,
    }
}

/// Appends the text that the notation of rows stands for, in which a slash stands for LF.
pub fn put_lines_of(alloc: Global, text: &str, out: &mut Buffer) -> Option<()> {
    let text = written_out(alloc, text)?;
    out.say_lines(text.text());
    out.note_of(&text);
    Some(())
}

/// `N`: a script of N swaps, each of a publication with a new name.
pub fn put_names(count: &str, out: &mut Buffer) -> Option<()> {
    out.say("network,40,Demo\nstream,1,1\nservice,101,1,1,256,257,Acme,One\nend\n");
    for i in 0..number(count)? as u64 {
        out.say_number("feed,1,name,101,Acme,News ", i);
        out.say("\npublish\nswap\n");
    }
    Some(())
}

// Appends the lines of a script of so many services with so many events each.
fn put_large_row(last: u64, events: &str, row: &mut Buffer) {
    row.say("network,40,Demo/stream,1,1/start,1993-10-13T12:45:00Z/");
    row.say_number("[101..", last);
    row.say("|service,#,1,1,#,#,Acme,Channel #/]end/");
    for id in 101..last.saturating_add(1) {
        row.say("[1..");
        row.say(events);
        row.say_number("*2700|feed,1,put,", id);
        row.say(",#,@,00:30:00,eng,News,,,,,/]");
    }
    row.say("publish/swap/feed,1,name,101,Acme,More/publish/\"swap\"/");
}

/// `SERVICES EVENTS`: so many services with so many events each are put on air, and then another name, by a swap in quotes, after which
/// the script is not cut.
pub fn put_large(alloc: Global, text: &str, out: &mut Buffer) -> Option<()> {
    let (services, events) = cut(text);
    let last = (number(services)? as u64).min(10_000).saturating_add(100);
    let mut row = Buffer::open(alloc);
    put_large_row(last, events, &mut row);
    put_lines_of(alloc, row.text(), out)
}
