// The options of `play`.
ghost use Rattle.std.specs.Prelude.{◌≡◌, ◌≢◌, ◌↔◌, Some, None, Err, IfOk, option_map, string_bytes};
ghost use Rattle.command_words.specs.Commands.{play_options_said, said_play, texts};
ghost use Rattle.command_words.specs.Grammar.{after_flags, is_play_flag, play_of, play_options, resume_of};
ghost use Rattle.command_words.specs.declared.command.WordsStop.TheVariants.{Usage};

use crate::command::WordsStop;
use crate::front::{split_path, times};
use std::alloc::Global;

/// The options of `play`.
#[derive(Drop)]
pub struct PlayWords {
    /// Whether the report is the checkpoint.
    pub fold: bool,
    /// Whether each entry is reported before the next line is read.
    pub follow: bool,
    /// Whether a line at fault is reported and passed over.
    pub keep_going: bool,
    /// Whether the script may have more than 67,108,864 bytes, as with `follow`.
    pub long: bool,
    /// The path of the checkpoint from which the run goes on.
    pub resume: Option<String>,
}

// What the options without a value say, from no checkpoint.
fn play_flags(words: &[String]) -> Option<PlayWords>
    ensures { option_map play_options_said result ≡ play_options (texts words.now) }
{
    let fold = times(words, "--fold");
    let follow = times(words, "--follow");
    let keep_going = times(words, "--keep-going");
    let long = times(words, "--long");
    if fold > 1 || follow > 1 || fold + follow > 1 || keep_going > follow || long > 1 {
        return None;
    }
    Some(PlayWords {
        fold: fold == 1,
        follow: follow == 1,
        keep_going: keep_going == 1,
        long: long == 1 || follow == 1,
        resume: None,
    })
}

fn is_flag(word: &str) -> bool
    ensures { result ≡ is_play_flag word.now }
{
    word == "--fold" || word == "--follow" || word == "--keep-going" || word == "--long"
}

// The words from the first on that is no option without a value.
fn after_flags(words: &[String]) -> &[String]
    ensures { texts result.now ≡ after_flags (texts words.now) }
{
    let mut rest = words;
    while let Some((word, after)) = rest.split_first() {
        if !is_flag(word.as_str()) {
            return rest;
        }
        rest = after;
    }
    rest
}

// The path of `--resume`, where it stands. All other words are options without a value.
fn resume_path(words: &[String]) -> Option<Option<&str>>
    ensures { option_map (option_map (λ path. path.now)) result ≡ resume_of (texts words.now) }
{
    let named = after_flags(words);
    if named.is_empty() {
        return Some(None);
    }
    let (path, after) = split_path(named, "--resume")?;
    if !after_flags(after).is_empty() {
        return None;
    }
    Some(Some(path))
}

fn copy_of(alloc: Global, path: Option<&str>) -> Result<Option<String>, WordsStop>
    ensures copy { IfOk result (λ copy.
        option_map string_bytes copy ≡ option_map (λ word. word.now) path.entry) }
    ensures usage { result ≢ Err Usage }
{
    match path {
        Some(path) => match String::from_str(alloc, path) {
            Ok(copy) => Ok(Some(copy)),
            Err(_) => Err(WordsStop::Memory),
        },
        None => Ok(None),
    }
}

// What these options of `play` say.
pub(crate) fn play_words(alloc: Global, words: &[String]) -> Result<PlayWords, WordsStop>
    ensures said { IfOk result (λ play. play_of (texts words.now) ≡ Some (said_play play)) }
    ensures usage { result ≡ Err Usage ↔ (play_of (texts words.now) ≡ None) }
{
    let Some(play) = play_flags(words) else {
        return Err(WordsStop::Usage);
    };
    let Some(path) = resume_path(words) else {
        return Err(WordsStop::Usage);
    };
    Ok(PlayWords {
        resume: copy_of(alloc, path)?,
        ..play
    })
}
