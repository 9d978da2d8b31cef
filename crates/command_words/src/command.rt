// Commands.
ghost use Rattle.std.specs.Prelude.{◌≡◌, ◌↔◌, Some, None, Err, IfOk, IfSome, option_and_then, option_map};
ghost use Rattle.command_words.specs.declared.command.WordsStop.TheVariants.{Usage};
ghost use Rattle.command_words.specs.Commands.{IsWithin, said, texts};
ghost use Rattle.command_words.specs.Grammar.{audit_of, command_of, listen_of, live_of, play_of, settings_of, soak_of};

use crate::audit::{AuditWords, audit_words};
use crate::listen::{ListenWords, listen_words};
use crate::matches::live_words;
use crate::play::{PlayWords, play_words};
use crate::uses::are_live;
use input_lines::number;
use si_base::Items;
use std::alloc::Global;

/// Paths of files, in the order in which they stood.
pub type Paths = Vec<String>;

/// The options of `live`: the paths of its feeds, 1 to 16, how many cycles its player sends, 1 to 1,000, the number of the first
/// packet that its monitor hears, 0 to 999,999,999, and the services of its views, none to 8.
#[derive(Drop)]
pub struct LiveWords {
    pub feeds: Paths,
    pub cycles: u64,
    pub join: u64,
    pub views: Items<u16>,
}

/// What the program is to do.
#[derive(Drop)]
pub enum Command {
    Play(PlayWords),
    /// A recording, heard.
    Listen(ListenWords),
    Live(LiveWords),
    /// A run of a load of its own making: the number of the load, 0 to 999,999,999.
    Soak(u64),
    /// A recording held against the air of a journal.
    Audit(AuditWords),
}

/// Why words give no command: they spell none, or memory is wanting for a path.
#[derive(Debug, Clone, Copy, PartialEq, Eq)]
pub enum WordsStop {
    Usage,
    Memory,
}

/// The command that words spell; the program's name is not among them.
///
/// `listen` has, in any order, `--details`, `--partial`, `--resync` and `--strict`, each at most once. `play` has, in any order, `--fold`,
/// `--follow`, `--keep-going`, `--long` and `--resume PATH`, each at most once; `--follow` does not stand with `--fold`, and
/// `--keep-going` stands only with `--follow`, which implies `--long`. `soak` has the number of its load, 0 to 999,999,999. `live` has, in any order,
/// `--feed PATH` 1 to 16 times, `--cycles N` once, `--join J` once and `--view SERVICE`, 0 to 65,535, at most 8 times.
/// `audit` has, in any order, `--air PATH` once and `--nulls` at most once. An option with a value is one word with `=`, or two words, of which the second does not begin with `-`.
/// A path is not empty and is not `-`. A number has one to nine digits and lies in its range. There are no short spellings.
///
/// `Usage` comes exactly where the words spell no command. `Memory` comes only where they do and memory is wanting.
pub fn parse_words(alloc: Global, words: &[String]) -> Result<Command, WordsStop>
    ensures command { IfOk result (λ command. command_of (texts words.now) ≡ Some (said command)) }
    ensures within { IfOk result IsWithin }
    ensures usage { result ≡ Err Usage ↔ (command_of (texts words.now) ≡ None) }
{
    let Some((word, behind)) = words.split_first() else {
        return Err(WordsStop::Usage);
    };
    if word.as_str() == "play" {
        return play(alloc, behind);
    }
    if word.as_str() == "listen" {
        return listen(behind).ok_or(WordsStop::Usage);
    }
    if word.as_str() == "live" {
        return live(alloc, behind);
    }
    if word.as_str() == "soak" {
        return soak(behind).ok_or(WordsStop::Usage);
    }
    if word.as_str() == "audit" {
        return audit(alloc, behind);
    }
    Err(WordsStop::Usage)
}

// The command of these options of `play`.
fn play(alloc: Global, words: &[String]) -> Result<Command, WordsStop>
    ensures command { IfOk result (λ command. play_of (texts words.now) ≡ Some (said command)) }
    ensures within { IfOk result IsWithin }
    ensures usage { result ≡ Err Usage ↔ (play_of (texts words.now) ≡ None) }
{
    match play_words(alloc, words) {
        Ok(play) => Ok(Command::Play(play)),
        Err(stop) => Err(stop),
    }
}

// The command of these options of `listen`.
fn listen(words: &[String]) -> Option<Command>
    ensures value { option_map said result ≡ listen_of (texts words.now) }
    ensures within { IfSome result IsWithin }
{
    let words = listen_words(words)?;
    Some(Command::Listen(words))
}

// The command of the one word behind `soak`.
fn soak(words: &[String]) -> Option<Command>
    ensures value { option_map said result ≡ soak_of (texts words.now) }
    ensures within { IfSome result IsWithin }
{
    let (word, behind) = words.split_first()?;
    if !behind.is_empty() {
        return None;
    }
    let number = number(word.as_str(), 0, 999_999_999)?;
    Some(Command::Soak(u64::from(number)))
}

// The command of these options of `audit`.
fn audit(alloc: Global, words: &[String]) -> Result<Command, WordsStop>
    ensures command { IfOk result (λ command. audit_of (texts words.now) ≡ Some (said command)) }
    ensures within { IfOk result IsWithin }
    ensures usage { result ≡ Err Usage ↔ (audit_of (texts words.now) ≡ None) }
{
    match audit_words(alloc, words) {
        Ok(audit) => Ok(Command::Audit(audit)),
        Err(stop) => Err(stop),
    }
}

// The command of these options of `live`.
fn live(alloc: Global, options: &[String]) -> Result<Command, WordsStop>
    ensures command { IfOk result (λ command. option_and_then live_of (settings_of (texts options.now)) ≡ Some (said command)) }
    ensures within { IfOk result IsWithin }
    ensures usage { result ≡ Err Usage ↔ (option_and_then live_of (settings_of (texts options.now)) ≡ None) }
{
    if !are_live(options) {
        return Err(WordsStop::Usage);
    }
    match live_words(alloc, options) {
        Ok(live) => Ok(Command::Live(live)),
        Err(_) => Err(WordsStop::Memory),
    }
}
