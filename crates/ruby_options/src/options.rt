use ruby_base::{NoMemory, Text};

/// What the program is asked to do.
#[derive(Clone, Copy)]
pub enum Command {
    /// A run of a protocol over the controllers of a topology, by the random tester.
    Run,
    /// A run of a protocol by the plain driver, with a number of requests.
    Plain,
    /// Whether a protocol keeps all rules, and how much there is in it.
    Check,
    /// The rows of a protocol's tables.
    Table,
    /// The listing of a protocol's compiled code.
    Code,
    /// A run of a generated protocol with a number of requests.
    Gen,
}

/// In which order the text of a run has the entries of its journal.
#[derive(Clone, Copy)]
pub enum Order {
    /// In that of the journal.
    Journal,
    /// Between two turns by increasing controllers, each controller's in their order.
    Cycle,
}

/// What the words of a command line ask for.
#[derive(Drop)]
pub struct Options {
    pub command: Command,
    /// The name of the protocol's file. It is empty for a generated protocol.
    pub protocol: Text,
    /// The name of the topology's file. It is empty for all but `Command::Run`.
    pub topology: Text,
    /// How many requests the plain driver issues: 0 to 1,000,000 for a plain run, 1 to 100,000 for a generated protocol, and
    /// 0 for other commands.
    pub count: u64,
    /// The seed of all random words.
    pub seed: u64,
    /// How many checks the random tester makes, 1 to 1,000,000.
    pub checks: u64,
    /// How many lines the random tester uses, 1 to 1,024.
    pub lines: u64,
    /// The last cycle that a run may reach, 1 to 10^12.
    pub cycles: u64,
    /// How many threads run controllers, or 0 where the calling thread does all alone.
    pub workers: u32,
    /// Whether a run's text has its journal.
    pub trace: bool,
    /// In which order it has it.
    pub order: Order,
    /// How many cycles the random tester lets a request wait before it is a deadlock, 1 to 10^12.
    pub deadlock: u64,
    /// How many transitions a controller may fire in a cycle, 1 to 1,000.
    pub limit: u64,
}

/// Why words ask for nothing.
#[derive(Clone, Copy)]
pub enum OptionFault {
    /// `clap` refuses the words, or there is no such command with so many names.
    Words,
    /// A value is outside its range, or isn't of its form.
    Range,
    NoMemory,
}

impl From<NoMemory> for OptionFault {
    ghost use Rattle.ruby_options.specs.declared.options.OptionFault.TheVariants.{NoMemory};
    ghost use Rattle.std.specs.Prelude.{◌≡◌};

    ghost from_gives = { λ _ fault. fault ≡ NoMemory };

    fn from(_: NoMemory) -> OptionFault {
        OptionFault::NoMemory
    }
}
