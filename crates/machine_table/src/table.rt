//! The tables of the machines of a protocol.
ghost use Rattle.std.specs.Prelude.{◌≡◌};

use pair_table::Table;
use ruby_base::{NoMemory, Seq};
use slicc_plan::{Row, Span};

/// The tables of a protocol's machines.
#[derive(Drop)]
pub struct Tables {
    pub(crate) machines: Seq<Table>,
    // How many states each machine has.
    pub(crate) counts: Seq<usize>,
}

/// Why there are no tables.
#[derive(Clone, Copy)]
pub enum TableFault {
    /// A state and an event of a machine have two written transitions.
    Duplicate {
        /// The earliest that has a pair with the second.
        first: Span,
        second: Span,
    },
    NoMemory,
}

impl From<NoMemory> for TableFault {
    ghost use Rattle.machine_table.specs.declared.table.TableFault.{TableFault};

    ghost from_gives = { λ _ fault. fault ≡ TableFault.NoMemory };

    fn from(_: NoMemory) -> TableFault {
        TableFault::NoMemory
    }
}

impl Tables {
    ghost use Rattle.std.specs.Option.{option_copied};
    ghost use Rattle.machine_table.specs.Answers.{answer, state_count};

    /// What a machine does on an event in a state, by their numbers: the one row that is written for them, or `None` where none
    /// is. It takes no memory.
    pub fn row(&self, machine: u16, state: u16, event: u16) -> Option<&Row>
        ensures { option_copied result ≡ answer self.now machine state event }
    {
        match self.machines.get(machine as usize) {
            None => None,
            Some(table) => table.row(state, event),
        }
    }

    /// How many states a machine has, by its number, and 0 where there is none. It takes no memory.
    pub fn states(&self, machine: u16) -> usize
        ensures { result ≡ state_count self.now machine }
    {
        match self.counts.get(machine as usize) {
            None => 0,
            Some(count) => *count,
        }
    }
}
