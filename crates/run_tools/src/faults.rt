// What fails in a run, and how much a call moves.

// No call has this number.
const NEVER: u64 = 1_000_000_000;

/// How many bytes a read of the input and a write move at most; the calls that fail, by their numbers from 0: a read of the input, a
/// write of the air, one of the report, an opening; and a read of a file, by the numbers of its opening and of the read.
#[derive(Clone, Copy)]
pub struct Faults {
    pub piece: usize,
    pub input: u64,
    pub air: u64,
    pub report: u64,
    pub opening: u64,
    pub read: (u64, u64),
}

/// Nothing fails.
pub const NONE: Faults = Faults {
    piece: 65_536,
    input: NEVER,
    air: NEVER,
    report: NEVER,
    opening: NEVER,
    read: (NEVER, NEVER),
};

// How many bytes a call moves at most, of each of these runs in turn.
const PIECES: [usize; 7] = [65_536, 1, 7, 187, 188, 189, 409];

// The number of a call, where `*` is that of this turn.
fn call_of(text: &str, turn: u64) -> Option<u64> {
    match text {
        "*" => Some(turn),
        _ => text.parse::<u64>().ok(),
    }
}

fn piece_of(text: &str, turn: u64) -> Option<usize> {
    match text {
        "*" => PIECES.get(turn as usize).copied(),
        _ => text.parse::<usize>().ok(),
    }
}

fn read_of(text: &str, turn: u64) -> Option<(u64, u64)> {
    let (opening, read) = text.split_once('.')?;
    Some((opening.parse::<u64>().ok()?, call_of(read, turn)?))
}

// Adds what one word says; whether it says something.
fn add(faults: &mut Faults, kind: &str, text: &str, turn: u64) -> Option<()> {
    match kind {
        "p" => faults.piece = piece_of(text, turn)?,
        "i" => faults.input = call_of(text, turn)?,
        "a" => faults.air = call_of(text, turn)?,
        "w" => faults.report = call_of(text, turn)?,
        "o" => faults.opening = call_of(text, turn)?,
        "r" => faults.read = read_of(text, turn)?,
        _ => return None,
    }
    Some(())
}

/// The faults of words with commas between: `-` is none, `p7` moves 7 bytes a call, `i3` fails read 3 of the input, `a3` write 3 of the
/// air, `w3` write 3 of the report, `o3` opening 3, and `r3.1` read 1 of opening 3. A star stands for the number of this turn.
pub fn faults_of(text: &str, turn: u64) -> Option<Faults> {
    let mut faults = NONE;
    if text == "-" {
        return Some(faults);
    }
    for word in text.split(',') {
        add(&mut faults, word.get(..1)?, word.get(1..)?, turn)?;
    }
    Some(faults)
}
