// The events of a row: each its start, its duration and its size, and `*n` where so many stand one
// after the other. They are parted by a slash.
use eit_segments::EventAt;
use row_lines::{MOST, Row};
use si_time::{Moment, read_duration, read_moment};

// The event that begins with this word.
fn event(row: &mut Row, start: &str) -> EventAt {
    let seconds = read_duration(row.word().as_bytes());
    let size = row.word().parse::<u32>().ok();
    EventAt {
        start: row.known(read_moment(start.as_bytes()), Moment(0)),
        seconds: row.known(seconds, 0),
        size: row.known(size, 0),
    }
}

// Refuses a word that does not end an event.
fn check_end(row: &mut Row, word: &str) {
    if !row.is_end(word) {
        row.refuse();
    }
}

// How often it stands. The word after it is read.
fn times(row: &mut Row) -> u32 {
    let word = row.word();
    let Some(times) = word.strip_prefix('*') else {
        check_end(row, word);
        return 1;
    };
    let after = row.word();
    check_end(row, after);
    row.known(times.parse::<u32>().ok(), 0)
}

// Appends an event so many times, each after the one before.
fn put_times(row: &mut Row, events: &mut Vec<EventAt>, first: EventAt, times: u32) {
    let mut event = first;
    for _ in 0..times {
        row.need(events.push(event).is_ok());
        event.start = Moment(event.start.0.wrapping_add(u64::from(event.seconds)));
    }
}

/// The events of a row.
pub fn read_events(row: &mut Row) -> Vec<EventAt> {
    let mut events = Vec::new(row.alloc());
    for _ in 0..MOST {
        let start = row.word();
        if start.is_empty() {
            break;
        }
        let first = event(row, start);
        let times = times(row);
        put_times(row, &mut events, first, times);
    }
    events
}
