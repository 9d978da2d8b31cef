// Options of `live`.
ghost use Rattle.std.specs.Prelude.{◌≡◌, ◌<◌, IfNone, IfSome, None, Some, length, option_map};
ghost use Rattle.std.specs.List.{list_any};
ghost use Rattle.command_words.specs.Commands.{option_of as option_in, texts};
ghost use Rattle.command_words.specs.Grammar.{and_setting, front_option, is_dashed as is_a_dashed, is_equals, is_path as is_a_path, path_of as path_in, setting_of as setting_named, settings_of};

use input_lines::number;

// An option, whatever its value.
#[derive(Clone, Copy)]
pub(crate) enum LiveOption {
    Feed,
    Cycles,
    Join,
    View,
}

// A path is not empty, and is not `-`.
pub(crate) fn is_path(path: &str) -> bool
    ensures { result ≡ is_a_path path.now }
{
    !path.is_empty() && path != "-"
}

fn feed_of(path: &str) -> Option<LiveOption>
    ensures { result ≡ option_map option_in (path_in path.now) }
{
    if is_path(path) {
        Some(LiveOption::Feed)
    } else {
        None
    }
}

// The option of this name, where it may have this value.
pub(crate) fn option_of(name: &str, value: &str) -> Option<LiveOption>
    ensures { result ≡ option_map option_in (setting_named name.now value.now) }
{
    if name == "--feed" {
        feed_of(value)
    } else if name == "--cycles" {
        number(value, 1, 1000)?;
        Some(LiveOption::Cycles)
    } else if name == "--join" {
        number(value, 0, 999_999_999)?;
        Some(LiveOption::Join)
    } else if name == "--view" {
        number(value, 0, 65_535)?;
        Some(LiveOption::View)
    } else {
        None
    }
}

fn is_dashed(value: &str) -> bool
    ensures { result ≡ is_a_dashed value.now }
{
    value.as_bytes().first() == Some(&b'-')
}

// Name and value of the option at the front of these words, and the words behind it.
pub(crate) fn first_option(words: &[String]) -> Option<(&str, &str, &[String])>
    requires { 0 < length words.now }
    ensures some { IfSome result (λ r. settings_of (texts words.now)
        ≡ and_setting (setting_named r.0.now r.1.now) (settings_of (texts r.2.now))) }
    ensures shorter { IfSome result (λ r. length r.2.now < length words.now) }
    ensures none { IfNone result (settings_of (texts words.now) ≡ None) }
    ensures front { option_map (λ r. (r.0.now, r.1.now, texts r.2.now)) result ≡ front_option (texts words.now) }
{
    let (word, behind) = words.split_first()?;
    match word.as_str().split_once('=') {
        Some((name, value)) => Some((name, value, behind)),
        None => {
            let (value, behind) = behind.split_first()?;
            if is_dashed(value.as_str()) {
                return None;
            }
            Some((word.as_str(), value.as_str(), behind))
        }
    }
}
