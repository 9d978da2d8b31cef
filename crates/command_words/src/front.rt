// A flag, and an option with the path of a file, among words.
ghost use Rattle.std.specs.Prelude.{◌≡◌, option_map};
ghost use Rattle.command_words.specs.Commands.{texts};
ghost use Rattle.command_words.specs.Grammar.{flag_front, flagged_path, path_front, times};

use crate::setting::{first_option, is_path};

/// How often a word stands among these.
#[tactic(auto, using(crate::proofs::Counting::count_texts))]
pub(crate) fn times(words: &[String], name: &str) -> usize
    ensures { result ≡ times name.now (texts words.now) }
{
    words.iter().filter(|word| word.as_str() == name).count()
}

// Whether this flag stands at the front of words, and the words behind it.
fn split_flag<'a>(words: &'a [String], flag: &str) -> (bool, &'a [String])
    ensures { (result.0, texts result.1.now) ≡ flag_front flag.now (texts words.now) }
{
    match words.split_first() {
        Some((word, behind)) if word.as_str() == flag => (true, behind),
        _ => (false, words),
    }
}

/// The path of an option of this name at the front of words, and the words behind it.
pub(crate) fn split_path<'a>(words: &'a [String], name: &str) -> Option<(&'a str, &'a [String])>
    ensures { option_map (λ r. (r.0.now, texts r.1.now)) result
        ≡ path_front name.now (texts words.now) }
{
    if words.is_empty() {
        return None;
    }
    let (found, path, behind) = first_option(words)?;
    if found != name || !is_path(path) {
        return None;
    }
    Some((path, behind))
}

/// What words say that are an option of this name with a path and, before it or after it, this flag, or not: whether the flag stands, and
/// the path.
pub(crate) fn flagged_path<'a>(
    words: &'a [String],
    flag: &str,
    name: &str,
) -> Option<(bool, &'a str)>
    ensures { option_map (λ r. (r.0, r.1.now)) result
        ≡ flagged_path flag.now name.now (texts words.now) }
{
    let (first, rest) = split_flag(words, flag);
    let (path, behind) = split_path(rest, name)?;
    let (last, rest) = split_flag(behind, flag);
    if !rest.is_empty() || (first && last) {
        return None;
    }
    Some((first || last, path))
}
