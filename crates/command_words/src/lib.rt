//! The words behind the program's name. They are read with `clap` as one simple command: a positional, which is `session`, an option
//! `--workers` with a number, and an option `--store` with a path. Which words are taken is `clap`'s own definition (`specs/Words`); its
//! texts are not shown.
#![tactic(auto)]

ghost use Rattle.std.specs.Prelude.{◌≡◌, ◌≤◌, IfOk, IfSome, codes, map, option_map};
ghost use Rattle.command_words.specs.Words.{app, digit_of, number_in, option_rule, options_in, options_of, words_asked};
ghost use Rattle.clap.specs.Words.{app_of, first_value, found_of, with_rule};

use clap::error::ErrorKind;
use clap::{Arg, ArgAction, ArgMatches, Command, Error};
use std::alloc::{AllocError, Global};

/// How many workers there are where no number is given.
const WORKERS: u32 = 4;

/// The greatest number of workers.
const MOST_WORKERS: u32 = 64;

/// What the words ask for.
#[derive(Clone, Copy, Debug)]
pub struct Asked<'a> {
    /// For how many workers, from 0 to 64.
    pub workers: u32,
    /// The path of the store, where one is named: any text, the empty one too.
    pub store: Option<&'a str>,
}

/// The value of a digit.
fn digit(byte: u8) -> Option<u32>
    ensures { result ≡ digit_of byte }
{
    if byte.is_ascii_digit() {
        Some(u32::from(byte - b'0'))
    } else {
        None
    }
}

/// The number that the text is: one or two digits, at most 64.
fn number(text: &str) -> Option<u32>
    ensures { result ≡ number_in text.now }
{
    let found = match text.as_bytes() {
        [one] => digit(*one)?,
        [ten, one] => 10 * digit(*ten)? + digit(*one)?,
        _ => return None,
    };
    if found <= MOST_WORKERS {
        Some(found)
    } else {
        None
    }
}

/// The command with a further option, which takes one value.
fn with_option<'a>(
    alloc: Global,
    command: Command<'a>,
    name: &'a str,
) -> Result<Command<'a>, AllocError>
    ensures { IfOk result (λ new. app_of new ≡ with_rule (app_of command.entry) (option_rule name.now)) }
{
    let option = Arg::new(alloc, name).long(name).action(ArgAction::Set);
    command.arg(option)
}

/// The command that the words are read with.
fn command<'a>(alloc: Global) -> Result<Command<'a>, AllocError>
    ensures { IfOk result (λ command. app_of command ≡ app) }
{
    let what = Arg::new(alloc, "what")
        .required(true)
        .action(ArgAction::Set);
    let command = Command::new(alloc, "heapan")
        .no_binary_name(true)
        .arg(what)?;
    let command = with_option(alloc, command, "workers")?;
    with_option(alloc, command, "store")
}

/// What the words ask for, which `clap` takes.
fn asked_in<'a>(matches: &ArgMatches<'a>) -> Option<Asked<'a>>
    ensures { option_map options_of result ≡ options_in
        (first_value (found_of matches.now) (codes "what"))
        (first_value (found_of matches.now) (codes "workers"))
        (first_value (found_of matches.now) (codes "store")) }
{
    match matches.get_str("what") {
        Some("session") => {}
        _ => return None,
    }
    let workers = match matches.get_str("workers") {
        Some(text) => number(text)?,
        None => WORKERS,
    };
    Some(Asked {
        workers,
        store: matches.get_str("store"),
    })
}

/// What the words ask for; none where they are not of the form that the program takes.
///
/// # Errors
///
/// Only want of memory.
pub fn asked_by<'a>(alloc: Global, words: &'a [&'a str]) -> Result<Option<Asked<'a>>, AllocError>
    ensures asked { IfOk result (λ asked. option_map options_of asked ≡ words_asked (map (λ word. word.now) words.now)) }
    ensures few { IfOk result (λ asked. IfSome asked (λ those. those.workers ≤ 64)) }
{
    match command(alloc)?.try_get_matches_from(words) {
        Ok(matches) => Ok(asked_in(&matches)),
        Err(error) => match error.kind() {
            ErrorKind::OutOfMemory => Err(AllocError),
            _ => Ok(None),
        },
    }
}
