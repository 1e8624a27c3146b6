// Command lines, and what each asks for by the tables of commands and options and by what clap says of itself. A line has the name of a
// program and its words with a `|` between two, where a `?` is a word that isn't UTF-8.
use example_texts::RowText;
use ruby_options::{Command, OptionFault, Options, read, words};
use std::env::{Env, FillError};
use std::io::ErrorKind;

// The arguments of a program, as a line has them.
#[derive(Clone, Copy)]
struct Arguments<'a> {
    line: &'a str,
}

fn bytes_of(word: &str) -> &[u8] {
    if word == "?" {
        b"\xff"
    } else {
        word.as_bytes()
    }
}

impl<'a> Env for Arguments<'a> {
    fn arg(&self, i: usize, buf: &mut [u8]) -> Result<usize, FillError> {
        let Some(word) = self.line.split('|').nth(i) else {
            return Err(FillError::NotPresent);
        };
        let argument = bytes_of(word);
        let Some(room) = buf.get_mut(..argument.len()) else {
            return Err(FillError::TooLong);
        };
        room.copy_from_slice(argument);
        Ok(argument.len())
    }

    fn var(&self, _name: &str, _buf: &mut [u8]) -> Result<usize, FillError> {
        Err(FillError::NotPresent)
    }

    fn var_at(&self, _i: usize, _buf: &mut [u8]) -> Result<usize, FillError> {
        Err(FillError::NotPresent)
    }
}

fn command_name(command: Command) -> &'static str {
    match command {
        Command::Run => "run",
        Command::Plain => "plain",
        Command::Check => "check",
        Command::Table => "table",
        Command::Code => "code",
        Command::Gen => "gen",
    }
}

fn add_options(rows: &mut RowText, options: &Options) {
    rows.add(command_name(options.command));
    rows.add(" '");
    rows.add_bytes(&options.protocol);
    rows.add("' '");
    rows.add_bytes(&options.topology);
    rows.add(if options.trace { "' on" } else { "' off" });
    let numbers = [
        options.count,
        options.seed,
        options.checks,
        options.lines,
        options.cycles,
        u64::from(options.workers),
        options.deadlock,
        options.limit,
    ];
    for number in &numbers {
        rows.show(" ", number);
    }
}

// Adds what words ask for.
fn add_asked(rows: &mut RowText, words: &[String]) {
    match &read(rows.alloc(), words) {
        Ok(options) => add_options(rows, options),
        Err(OptionFault::Words) => rows.add("words"),
        Err(OptionFault::Range) => rows.add("range"),
        Err(OptionFault::NoMemory) => rows.lose(),
    }
}

/// Adds what a command line asks for.
pub(crate) fn add_line(rows: &mut RowText, line: &str) {
    rows.add(line);
    rows.add(": ");
    match &words(&Arguments { line }, rows.alloc()) {
        Ok(words) => add_asked(rows, words.as_slice()),
        Err(fault) if fault.kind() == ErrorKind::InvalidData => rows.add("no text"),
        Err(_) => rows.lose(),
    }
    rows.add("\n");
}
