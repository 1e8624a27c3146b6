// The tables of commands and options. The definitions in specs/ and the code read the same ones.
use crate::Command;

/// The numbers that a value may be: from the first to the second, both included.
pub type Bounds = (u64, u64);

/// A command's word, how many names follow it, and the command. A run is by the plain driver where its second name is digits
/// alone.
pub type CommandRow = (&'static str, usize, Command);

/// An option whose value is a number: its name, without the two hyphens before it, its bounds and its default.
pub type NumberOption = (&'static str, Bounds, u64);

/// The program's name, which stands before the words.
pub const PROGRAM: &str = "ruby";

/// What clap calls the first word that is neither an option nor the value of one.
pub const COMMAND: &str = "command";

/// What it calls the further ones.
pub const NAMES: &str = "names";

pub const COMMANDS: [CommandRow; 5] = [
    ("run", 2, Command::Run),
    ("check", 1, Command::Check),
    ("table", 1, Command::Table),
    ("code", 1, Command::Code),
    ("gen", 1, Command::Gen),
];

/// The requests of a plain run.
pub const REQUESTS: Bounds = (0, 1_000_000);

/// The requests of a run of a generated protocol.
pub const GENERATED: Bounds = (1, 100_000);

pub const SEED: NumberOption = ("seed", (0, 18_446_744_073_709_551_615), 1);

pub const CHECKS: NumberOption = ("checks", (1, 1_000_000), 100);

pub const LINES: NumberOption = ("lines", (1, 1_024), 4);

pub const CYCLES: NumberOption = ("cycles", (1, 1_000_000_000_000), 1_000_000);

pub const WORKERS: NumberOption = ("workers", (0, 16), 0);

pub const DEADLOCK: NumberOption = ("deadlock", (1, 1_000_000_000_000), 500_000);

pub const LIMIT: NumberOption = ("limit", (1, 1_000), 32);

/// All options whose value is a number.
pub const NUMBERS: [NumberOption; 7] = [SEED, CHECKS, LINES, CYCLES, WORKERS, DEADLOCK, LIMIT];

/// The option whose value is `on` or `off`. It is on where the words don't give it.
pub const TRACE: &str = "trace";

/// The option whose value is `journal` or `cycle`. It is `journal` where the words don't give it.
pub const ORDER: &str = "order";
