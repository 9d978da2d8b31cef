// The options of `live`, as clap splits them.
ghost use Rattle.std.specs.Prelude.{◌≡◌, ◌++◌, [], List, IfNone, IfOk, IfSome, OnOk, IsSome, Some, false, filter_map, map, option_and_then};
ghost use Rattle.std.specs.List.{cons_option};
ghost use Rattle.input_lines.specs.Numbers.{number_in};
ghost use Rattle.clap.specs.Words.{app_of, found_of, rule_of};
ghost use Rattle.command_words.specs.Commands.{said_live, texts};
ghost use Rattle.command_words.specs.Grammar.{CommandLine, live_of, settings_of};
ghost use Rattle.command_words.specs.Matches.{Say, live, needed, optional, required};

use crate::command::{LiveWords, Paths};
use clap::error::ErrorKind;
use clap::{Arg, ArgAction, ArgMatches, Command};
use input_lines::number;
use si_base::Items;
use std::alloc::{AllocError, Global};

// An option that has to stand, and has a value.
fn required_option<'a>(alloc: Global, name: &'a str, action: ArgAction) -> Arg<'a>
    ensures rule { rule_of result ≡ required name.entry.now action }
    ensures local { result.global ≡ false }
{
    Arg::new(alloc, name)
        .long(name)
        .action(action)
        .required(true)
}

// An option that need not stand, and has a value.
fn optional_option<'a>(alloc: Global, name: &'a str, action: ArgAction) -> Arg<'a>
    ensures rule { rule_of result ≡ optional name.entry.now action }
    ensures local { result.global ≡ false }
{
    Arg::new(alloc, name).long(name).action(action)
}

// `live` without its first word, with the options that have to stand.
fn needed_command<'a>(alloc: Global) -> Result<Command<'a>, AllocError>
    ensures { IfOk result (λ command. app_of command ≡ needed) }
{
    Command::new(alloc, "live")
        .no_binary_name(true)
        .disable_help_flag(true)
        .arg(required_option(alloc, "feed", ArgAction::Append))?
        .arg(required_option(alloc, "cycles", ArgAction::Set))?
        .arg(required_option(alloc, "join", ArgAction::Set))
}

// And with those that need not.
fn live_command<'a>(alloc: Global) -> Result<Command<'a>, AllocError>
    ensures { IfOk result (λ command. app_of command ≡ live) }
{
    needed_command(alloc)?.arg(optional_option(alloc, "view", ArgAction::Append))
}

// What clap matches, where the words are the options of `live`: it takes them all, so that only memory may be wanting.
fn live_matches<'a>(alloc: Global, words: &'a [String]) -> Result<ArgMatches<'a>, AllocError>
    requires { IsSome (option_and_then live_of (settings_of (texts words.now))) }
    ensures { (line : CommandLine) → option_and_then live_of (settings_of (texts words.entry.now)) ≡ Some line
        → IfOk result (λ matches. Say (found_of matches) line) }
{
    match live_command(alloc)?.try_get_matches_from(words) {
        Ok(matches) => Ok(matches),
        Err(error) => match error.kind() {
            ErrorKind::OutOfMemory => Err(AllocError),
            _ => unreachable!(),
        },
    }
}

fn copies(alloc: Global, paths: &[&str]) -> Result<Paths, AllocError>
    ensures { IfOk result (λ copies. texts copies.items ≡ map (λ path. path.now) paths.now) }
{
    let mut copies = Vec::new(alloc);
    for path in paths {
        copies.push(String::from_str(alloc, path)?)?;
    }
    Ok(copies)
}

// Appends the number that a text spells, if it spells one.
fn put_number(numbers: &mut Items<u16>, text: &str) -> Result<(), AllocError>
    ensures { OnOk result (numbers.new ≡ numbers.old ++ cons_option (number_in 0 65535 text.now) []) }
{
    if let Some(n) = number(text, 0, 65_535) {
        numbers.push(n as u16)?;
    }
    Ok(())
}

// The numbers that these texts spell, of those that spell one.
fn numbers(alloc: Global, texts: &[&str]) -> Result<Items<u16>, AllocError>
    ensures { IfOk result (λ numbers. numbers ≡ filter_map (number_in 0 65535) (map (λ text. text.now) texts.now)) }
{
    let mut numbers = Items::new(alloc);
    for text in texts {
        put_number(&mut numbers, text)?;
    }
    Ok(numbers)
}

// The services of views, where any are asked for.
fn views(alloc: Global, given: Option<&[&str]>) -> Result<Items<u16>, AllocError>
    ensures some { IfOk result (λ numbers. IfSome given.entry
        (λ words. numbers ≡ filter_map (number_in 0 65535) (map (λ text. text.now) words.now))) }
    ensures none { IfOk result (λ numbers. IfNone given.entry (numbers ≡ [])) }
{
    match given {
        Some(words) => numbers(alloc, words),
        None => Ok(Items::new(alloc)),
    }
}

// What the options of `live` say.
pub(crate) fn live_words(alloc: Global, words: &[String]) -> Result<LiveWords, AllocError>
    requires { IsSome (option_and_then live_of (settings_of (texts words.now))) }
    ensures { IfOk result (λ live. option_and_then live_of (settings_of (texts words.now)) ≡ Some (said_live live)) }
{
    let matches = live_matches(alloc, words)?;
    let cycles = matches.get_str("cycles").unwrap();
    let join = matches.get_str("join").unwrap();
    Ok(LiveWords {
        feeds: copies(alloc, matches.get_strs("feed").unwrap())?,
        cycles: u64::from(number(cycles, 1, 1000).unwrap()),
        join: u64::from(number(join, 0, 999_999_999).unwrap()),
        views: views(alloc, matches.get_strs("view"))?,
    })
}
