//! The command that the words name.
ghost use Rattle.std.specs.Prelude.{◌≡◌, ◌≢◌, ◌↔◌, IfOk, Some, None, false, map, option_and_then};
ghost use Rattle.std.specs.Prelude.{option_map, string_bytes};
ghost use Rattle.std.specs.List.{list_any};
ghost use Rattle.clap.specs.Words.{found_of, kind_of, rows_of, subcommand_rows_of};
ghost use Rattle.words.specs.declared.command.Command.{Command};
ghost use Rattle.words.specs.Forms.{Names};
ghost use Rattle.words.specs.Numbers.{number_in};
ghost use Rattle.words.specs.Rules.{command_in, has_end_of_options as has_end, is_end_of_options, taken, workers_in};

use crate::command::{Command, Workers};
use crate::number::number_within;
use crate::program::program;
use clap::error::ErrorKind;
use clap::{ArgMatches, Error};
use ps_model::OutOfMemory;
use std::alloc::Global;

/// The command that the words behind the program's own name ask for, None of refused words.
///
/// `factor`, `factor --rounds V`, `factor --workers V`, `expand`, `check` and `demo V`; an option and its value may be
/// joined by `=`. V of an option is one to four digits with a value from 1 to 64, that of `demo` one to twenty digits
/// with a value below 2^64. All other lists of words are refused.
pub fn command_of(alloc: Global, words: &[String]) -> Result<Option<Command>, OutOfMemory>
    // The words name a command exactly where it is answered.
    ensures named { IfOk result (λ command. (c : Command) → (command ≡ Some c) ↔ Names (map string_bytes words.now) c) }
    ensures parsed { IfOk result (λ command. command ≡ command_in (map string_bytes words.now)) }
{
    if has_end_of_options(words) {
        return Ok(None);
    }
    parse(alloc, words)
}

/// Whether one of the words is `--`.
fn has_end_of_options(words: &[String]) -> bool
    ensures { result ≡ list_any (λ word. is_end_of_options (string_bytes word)) words.now }
{
    words.iter().any(|word| word.as_str() == "--")
}

/// The command of words none of which is `--`.
fn parse(alloc: Global, words: &[String]) -> Result<Option<Command>, OutOfMemory>
    requires { has_end (map string_bytes words.now) ≡ false }
    ensures { IfOk result (λ command. command ≡ command_in (map string_bytes words.now)) }
{
    let command = program(alloc)?;
    match command.try_get_matches_from(words) {
        Ok(matches) => Ok(taken_from(&matches)),
        Err(error) => refused(&error),
    }
}

/// None of words that `clap` refuses; that memory ran out is no refusal.
fn refused(error: &Error) -> Result<Option<Command>, OutOfMemory>
    ensures { IfOk result (λ command. (command ≡ None) × (kind_of error.now ≢ ErrorKind.OutOfMemory)) }
{
    match error.kind() {
        ErrorKind::OutOfMemory => Err(OutOfMemory),
        _ => Ok(None),
    }
}

/// What `clap` found, by the rules.
fn taken_from(matches: &ArgMatches<'_>) -> Option<Command>
    ensures { result ≡ option_and_then (λ p. taken p.0 p.1) (subcommand_rows_of matches.now) }
{
    match matches.subcommand() {
        Some((name, found)) => taken_as(name, found),
        None => None,
    }
}

/// What `clap` found for the subcommand with this name, by the rules.
fn taken_as(name: &str, found: &ArgMatches<'_>) -> Option<Command>
    ensures { result ≡ taken name.now (rows_of (found_of found.now)) }
{
    match name {
        "factor" => {
            let workers = workers_of(found.get_str("rounds"), found.get_str("workers"))?;
            Some(Command::Factor(workers))
        }
        "expand" => Some(Command::Expand),
        "check" => Some(Command::Check),
        "demo" => {
            let number = number_within(found.get_str("number")?, 20, 0, u64::MAX)?;
            Some(Command::Demo(number))
        }
        _ => None,
    }
}

/// The workers that the options ask for, of which one at most is given.
fn workers_of(rounds: Option<&str>, workers: Option<&str>) -> Option<Workers>
    ensures { result ≡ workers_in (option_map (λ s. s.now) rounds.entry) (option_map (λ s. s.now) workers.entry) }
{
    match (rounds, workers) {
        (None, None) => Some(Workers::One),
        (Some(rounds), None) => Some(Workers::Rounds(count_of_workers(rounds)?)),
        (None, Some(workers)) => Some(Workers::Pipeline(count_of_workers(workers)?)),
        (Some(_), Some(_)) => None,
    }
}

/// One to four digits with a value from 1 to 64.
fn count_of_workers(word: &str) -> Option<u32>
    ensures { result ≡ number_in 4 1 64 word.now }
{
    let count = number_within(word, 4, 1, 64)?;
    Some(count as u32)
}
