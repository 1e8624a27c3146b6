// The command of a line, by its word and names, and what its names are.
ghost use Rattle.std.specs.Prelude.{◌≡◌, map};
ghost use Rattle.ruby_options.specs.Asked.{by_names, command_among, command_named, command_of, count_in, is_there, name_at, protocol_of, topology_of};

use crate::numbers::{are_digits, number_within};
use crate::{COMMANDS, Command, CommandRow, GENERATED, REQUESTS};

// A name by its place, or the empty text where there is none.
fn name_at<'a>(names: &[&'a str], place: usize) -> &'a str
    ensures { result.now ≡ name_at (map (λ name. name.now) names.now) place }
{
    match names.get(place) {
        Some(name) => name,
        None => "",
    }
}

impl Command {
    // The command with these names: a run whose second name is digits alone is one by the plain driver.
    fn by_names(self, names: &[&str]) -> Command
        ensures { result ≡ by_names self (map (λ name. name.now) names.now) }
    {
        match self {
            Command::Run if are_digits(name_at(names, 1).as_bytes()) => Command::Plain,
            command => command,
        }
    }

    // Whether words may ask for the command: not for compiled code, as long as there is none.
    fn is_there(self) -> bool
        ensures { result ≡ is_there self }
    {
        match self {
            Command::Code => false,
            _ => true,
        }
    }

    /// The command that a word and the names after it ask for, if they ask for one.
    pub(crate) fn of(word: &str, names: &[&str]) -> Option<Command>
        ensures { result ≡ command_of word.now (map (λ name. name.now) names.now) }
    {
        let command = command_named(word, names.len())?;
        if command.is_there() {
            Some(command.by_names(names))
        } else {
            None
        }
    }

    /// The name of the protocol's file.
    pub(crate) fn protocol<'a>(self, names: &[&'a str]) -> &'a str
        ensures { result.now ≡ protocol_of self (map (λ name. name.now) names.now) }
    {
        match self {
            Command::Gen => "",
            _ => name_at(names, 0),
        }
    }

    /// The name of the topology's file.
    pub(crate) fn topology<'a>(self, names: &[&'a str]) -> &'a str
        ensures { result.now ≡ topology_of self (map (λ name. name.now) names.now) }
    {
        match self {
            Command::Run => name_at(names, 1),
            _ => "",
        }
    }

    /// The number of requests that a name gives, or none where it is no number within its bounds.
    pub(crate) fn count(self, names: &[&str]) -> Option<u64>
        ensures { result ≡ count_in self (map (λ name. name.now) names.now) }
    {
        match self {
            Command::Plain => number_within(REQUESTS, name_at(names, 1)),
            Command::Gen => number_within(GENERATED, name_at(names, 0)),
            _ => Some(0),
        }
    }
}

// The command of these rows with this word and so many names.
fn command_among(rows: &[CommandRow], word: &str, names: usize) -> Option<Command>
    ensures { result ≡ command_among (map (λ row. (row.0.now, row.1, row.2)) rows.now) word.now names }
{
    for row in rows {
        if row.0 == word && row.1 == names {
            return Some(row.2);
        }
    }
    None
}

// The command of the table with this word and so many names.
#[tactic(auto, unfolding(crate::specs::Asked::command_named))]
fn command_named(word: &str, names: usize) -> Option<Command>
    ensures { result ≡ command_named word.now names }
{
    command_among(&COMMANDS, word, names)
}
