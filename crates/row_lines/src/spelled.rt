// The notation of bytes.
use crate::buffer::Buffer;
use std::alloc::Global;

// The most times that a part stands.
const MOST: u32 = 1_000_000;

// Where the last part begins, and the brackets that are open: where the length of each stands, and in how many bytes.
#[derive(Drop)]
struct Speller {
    last: usize,
    brackets: Vec<(usize, usize)>,
}

fn digit_of(sign: u8) -> Option<u8> {
    match sign {
        b'0'..=b'9' => Some(sign - b'0'),
        b'A'..=b'F' => Some(sign - b'A' + 10),
        _ => None,
    }
}

// The decimal number that a text begins with, and what stands behind it.
fn number_in(text: &str) -> Option<(u32, &str)> {
    let bytes = text.as_bytes().iter();
    let len = bytes.take_while(|byte| byte.is_ascii_digit()).count();
    Some((text.get(..len)?.parse::<u32>().ok()?, text.get(len..)?))
}

fn put_short(number: u32, out: &mut Buffer) -> Option<()> {
    let number = u16::try_from(number).ok()?;
    out.put(&number.to_be_bytes());
    Some(())
}

impl Speller {
    // Takes what a text begins with, and gives what stands behind it.
    fn take<'t>(&mut self, alloc: Global, text: &'t str, out: &mut Buffer) -> Option<&'t str> {
        let behind = text.get(1..)?;
        match text.get(..1)? {
            " " => return Some(behind),
            "(" => self.open(1, 0, out)?,
            "[" => self.open(2, 0xF0, out)?,
            ")" => self.close(1, out)?,
            "]" => self.close(2, out)?,
            "#" | "^" | "*" => return self.take_number(alloc, text, out),
            "\"" => return self.take_text(behind.split_once('"')?, out),
            "`" => return self.take_text(behind.split_once('`')?, out),
            _ => return self.take_digits(text, out),
        }
        Some(behind)
    }

    fn take_text<'t>(
        &mut self,
        (text, behind): (&'t str, &'t str),
        out: &mut Buffer,
    ) -> Option<&'t str> {
        self.last = out.len();
        out.say(text);
        Some(behind)
    }

    fn take_number<'t>(
        &mut self,
        alloc: Global,
        text: &'t str,
        out: &mut Buffer,
    ) -> Option<&'t str> {
        let (number, behind) = number_in(text.get(1..)?)?;
        match text.get(..1)? {
            "#" => put_short(number, out)?,
            "^" if number < 8_192 => put_short(number | 0xE000, out)?,
            "*" if number <= MOST => self.repeat(alloc, number, out),
            _ => return None,
        }
        Some(behind)
    }

    // The last part stands so many times.
    fn repeat(&self, alloc: Global, times: u32, out: &mut Buffer) {
        let mut part = Buffer::open(alloc);
        part.put(out.as_slice().get(self.last..).unwrap_or(&[]));
        out.truncate(self.last);
        for _ in 0..times {
            out.put(part.as_slice());
        }
        out.note_of(&part);
    }

    // A byte of two digits each; before a bracket a digit may stand.
    fn take_digits<'t>(&mut self, text: &'t str, out: &mut Buffer) -> Option<&'t str> {
        let bytes = text.as_bytes().iter();
        let len = bytes.take_while(|byte| digit_of(**byte).is_some()).count();
        self.last = out.len();
        for pair in text.as_bytes().get(..len)?.chunks(2) {
            match pair {
                [high, low] => out.push(digit_of(*high)? << 4 | digit_of(*low)?),
                [half] => {
                    self.open(2, digit_of(*half)? << 4, out)?;
                    return text.get(len..)?.strip_prefix('[');
                }
                _ => return None,
            }
        }
        if len == 0 { None } else { text.get(len..) }
    }

    fn open(&mut self, width: usize, first: u8, out: &mut Buffer) -> Option<()> {
        out.need(self.brackets.push((out.len(), width)).is_ok());
        out.push(first);
        if width == 2 {
            out.push(0);
        }
        Some(())
    }

    fn close(&mut self, width: usize, out: &mut Buffer) -> Option<()> {
        let (place, opened) = self.brackets.pop()?;
        let len = out.len().checked_sub(place)?.checked_sub(width)?;
        if opened != width || len >= 4_096 || (width == 1 && len >= 256) {
            return None;
        }
        let [.., high, low] = (len as u64).to_be_bytes();
        out.flip(place, high);
        out.set(place.saturating_add(width).saturating_sub(1), low);
        Some(())
    }
}

/// Appends the bytes that a text spells; None where it spells none.
///
/// It has pairs of hex digits, texts in double or back quotes, `#N` for a number of 16 bits, `^N` for a
/// PID of 13 bits behind three ones, and `*N` for how often the part before it stands. Brackets put the
/// length of what is in them before it: `( .. )` in 8 bits, `[ .. ]` in 12 bits behind the digit
/// before it, or behind four ones.
pub fn put_spelled(alloc: Global, text: &str, out: &mut Buffer) -> Option<()> {
    let mut speller = Speller {
        last: out.len(),
        brackets: Vec::new(alloc),
    };
    let mut rest = text;
    for _ in 0..text.len() {
        if rest.is_empty() {
            break;
        }
        rest = speller.take(alloc, rest, out)?;
    }
    if speller.brackets.is_empty() {
        Some(())
    } else {
        None
    }
}
