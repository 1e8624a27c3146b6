// The command that clap is given, and its reading of a line.
ghost use Rattle.std.specs.Prelude.{◌≡◌, ◌⊎◌, IfOk, MatchResult, true, false, fold, map, string_bytes};
ghost use Rattle.clap.specs.Matches.{found_of};
ghost use Rattle.clap.specs.Simple.{app_of};
ghost use Rattle.clap.specs.Walk.{rows_of};
ghost use Rattle.ruby_options.specs.Prelude.{found_in, is_taken, line_of, named_command, ruby_command, with_option};

use crate::{COMMAND, NAMES, NUMBERS, NoMemory, NumberOption, ORDER, OptionFault, PROGRAM, TRACE};
use clap::error::ErrorKind;
use clap::{Arg, ArgMatches};
use std::alloc::Global;

// A command with one more option, which has one value.
fn with_option<'a>(
    alloc: Global,
    command: clap::Command<'a>,
    name: &'a str,
) -> Result<clap::Command<'a>, NoMemory>
    ensures { IfOk result (λ c. app_of c ≡ with_option (app_of command.entry) name.entry.now) }
{
    let option = Arg::new(alloc, name).long(name);
    Ok(command.arg(option)?)
}

// A command with more options, one after the other.
fn with_numbers<'a>(
    alloc: Global,
    mut command: clap::Command<'a>,
    options: &[NumberOption],
) -> Result<clap::Command<'a>, NoMemory>
    ensures { IfOk result (λ c. app_of c ≡ fold with_option (app_of command.entry) (map (λ o. o.0.now) options.now)) }
{
    for option in options {
        command = with_option(alloc, command, option.0)?;
    }
    Ok(command)
}

// The command of the program without its options.
fn named_command<'a>(alloc: Global) -> Result<clap::Command<'a>, NoMemory>
    ensures { IfOk result (λ c. app_of c ≡ named_command) }
{
    let command = clap::Command::new(alloc, PROGRAM).arg(Arg::new(alloc, COMMAND))?;
    Ok(command.arg(Arg::new(alloc, NAMES).num_args(1..))?)
}

// The command of the program.
fn ruby_command<'a>(alloc: Global) -> Result<clap::Command<'a>, NoMemory>
    ensures { IfOk result (λ c. app_of c ≡ ruby_command) }
{
    let command = named_command(alloc)?;
    let command = with_numbers(alloc, command, &NUMBERS)?;
    let command = with_option(alloc, command, TRACE)?;
    with_option(alloc, command, ORDER)
}

/// The line of the words, with the program's name before them.
pub(crate) fn line_of(alloc: Global, words: &[String]) -> Result<Vec<&str>, NoMemory>
    ensures { IfOk result (λ line. map (λ word. word.now) line.items ≡ line_of (map string_bytes words.now)) }
{
    let mut line = Vec::new(alloc);
    line.push(PROGRAM)?;
    for word in words {
        line.push(word.as_str())?;
    }
    Ok(line)
}

/// What clap finds in a line, or that it refuses it.
pub(crate) fn found_in<'a>(
    alloc: Global,
    line: &'a [&'a str],
) -> Result<ArgMatches<'a>, OptionFault>
    ensures { let words = map (λ word. word.now) line.entry.now in MatchResult result
        (λ m. (is_taken words ≡ true) × (rows_of (found_of m) ≡ found_in words))
        (λ fault. (fault ≡ OptionFault.NoMemory) ⊎ ((fault ≡ OptionFault.Words) × (is_taken words ≡ false))) }
{
    let command = ruby_command(alloc)?;
    match command.try_get_matches_from(line) {
        Ok(matches) => Ok(matches),
        Err(e) => match e.kind() {
            ErrorKind::OutOfMemory => Err(OptionFault::NoMemory),
            _ => Err(OptionFault::Words),
        },
    }
}
