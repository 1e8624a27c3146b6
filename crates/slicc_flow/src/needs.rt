//! How many lines of its tables a transition needs.
ghost use Rattle.std.specs.Prelude.{◌≡◌, ◌==◌};
ghost use Rattle.std.specs.List.{count_by};
ghost use Rattle.slicc_flow.specs.Checks.{count_in};
ghost use Rattle.slicc_flow.specs.Machines.{checks_in};

use crate::machine::MachineBodies;
use ruby_base::Seq;
use std::marker::Model;

/// What each transition of a protocol's machines needs of tables. A contract sees it as the tables that its actions check, one by one,
/// machine by machine and transition by transition.
#[derive(Drop)]
pub struct Needs {
    machines: Seq<MachineBodies>,
}

impl Model for Needs {
    ghost use Rattle.std.specs.Prelude.{ℕ, List};
    ghost use Rattle.slicc_flow.specs.Machines.{checks_in};

    ghost Value = { List (List (List ℕ)) };

    ghost view = { λ x. checks_in x.machines };
}

fn count(checks: &[u32], table: u16) -> u64
    ensures { result ≡ count_by (λ k. k == table) checks.now }
{
    let mut n = 0;
    for k in checks {
        if *k == table as u32 {
            n += 1;
        }
    }
    n
}

impl Needs {
    // What the transitions of these machines need.
    pub fn of(machines: Seq<MachineBodies>) -> Needs
        ensures { result ≡ checks_in machines }
    {
        Needs { machines }
    }

    /// How many free lines a written transition of a machine needs in a table, all by their numbers. It is 0 where there is no
    /// such machine, transition or table.
    pub fn needs(&self, machine: u16, transition: u32, table: u16) -> u64
        ensures { result ≡ count_in self.now machine transition table }
    {
        match self.machines.get(machine as usize) {
            Some(b) => match b.checks.get(transition as usize) {
                Some(checks) => count(checks, table),
                None => 0,
            },
            None => 0,
        }
    }
}
