// A gate that holds places of a run until others are passed.
use si_causes::{Gate, Place};
use std::alloc::{AllocError, Global};
use std::sync::atomic::{AtomicBool, AtomicU64, Ordering};

/// A gate that holds each first place of a pair until the second is passed. A hold that is looked at 300,000,000 times gives up.
#[derive(Drop)]
pub struct Holding {
    holds: Vec<(Place, Place)>,
    passed: AtomicU64,
    gave_up: AtomicBool,
}

// The bit of a place: places of the feeds 1 and 2 and of swaps, from 1 to 15.
fn bit_of(place: Place) -> u64 {
    let (kind, at) = match place {
        Place::AfterEdit(1, at) => (0, at),
        Place::AfterEdit(_, at) => (16, at),
        Place::AfterSwap(at) => (32, at),
        _ => (48, 0),
    };
    1 << (kind + at % 16)
}

// A number after a letter.
fn number(text: &str) -> Option<u64> {
    text.parse::<u64>().ok()
}

// A place of a feed, as `1.3`.
fn place_of_feed(text: &str) -> Option<(u8, u64)> {
    let (feed, at) = text.split_once('.')?;
    let feed = feed.parse::<u8>().ok()?;
    Some((feed, number(at)?))
}

// A place: `E1.3` and `e1.3` are before and after edit 3 of feed 1, `S2` and `s2` before and after swap 2.
fn place(text: &str) -> Option<Place> {
    if let Some(text) = text.strip_prefix('E') {
        let (feed, at) = place_of_feed(text)?;
        return Some(Place::BeforeEdit(feed, at));
    }
    if let Some(text) = text.strip_prefix('e') {
        let (feed, at) = place_of_feed(text)?;
        return Some(Place::AfterEdit(feed, at));
    }
    if let Some(text) = text.strip_prefix('S') {
        return Some(Place::BeforeSwap(number(text)?));
    }
    let text = text.strip_prefix('s')?;
    Some(Place::AfterSwap(number(text)?))
}

// `E2.1>s1`: the first place waits for the second.
fn hold(text: &str) -> Option<(Place, Place)> {
    let (held, until) = text.split_once('>')?;
    Some((place(held)?, place(until)?))
}

impl Holding {
    /// The gate of holds with commas between; `-` and an empty text hold nothing. An error comes where one of them is no hold, or memory is
    /// wanting.
    pub fn of(alloc: Global, text: &str) -> Result<Holding, AllocError> {
        let mut holds = Vec::new(alloc);
        for text in text
            .split(',')
            .filter(|text| *text != "-" && !text.is_empty())
        {
            holds.push(hold(text).ok_or(AllocError)?)?;
        }
        Ok(Holding {
            holds,
            passed: AtomicU64::new(0),
            gave_up: AtomicBool::new(false),
        })
    }

    /// Whether a hold gave up.
    pub fn gave_up(&self) -> bool {
        self.gave_up.load(Ordering::SeqCst)
    }

    // Waits for a place to be passed.
    fn wait(&self, until: Place) {
        let bit = bit_of(until);
        for _ in 0..300_000_000u64 {
            if self.passed.load(Ordering::SeqCst) & bit != 0 {
                return;
            }
        }
        self.gave_up.store(true, Ordering::SeqCst);
    }
}

impl Gate for Holding {
    fn pass(&self, place: Place) {
        for (held, until) in &self.holds {
            if *held == place {
                self.wait(*until);
            }
        }
        self.passed.fetch_or(bit_of(place), Ordering::SeqCst);
    }
}
