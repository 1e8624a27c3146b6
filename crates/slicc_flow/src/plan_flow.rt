//! What the transitions of a plan need and send.
ghost use Rattle.std.specs.Prelude.{◌≡◌};
ghost use Rattle.slicc_flow.specs.Checks.{count_in};
ghost use Rattle.slicc_flow.specs.Sends.{sends_in};

use crate::needs::Needs;
use crate::sends::{MachineSends, sends_in};
use ruby_base::Seq;
use std::marker::Model;

/// What each transition of a plan's machines needs of tables and sends on buffers. A contract sees it as both.
#[derive(Drop)]
pub struct Flow {
    needs: Needs,
    sends: Seq<MachineSends>,
}

impl Model for Flow {
    ghost use Rattle.std.specs.Prelude.{ℕ, List};
    ghost use Rattle.slicc_flow.specs.declared.sends.MachineSends.{MachineSends};

    ghost Value = { List (List (List ℕ)) × List MachineSends };

    ghost view = { λ x. (x.needs, x.sends) };
}

impl Flow {
    // What needs and sends are these.
    pub fn of(needs: Needs, sends: Seq<MachineSends>) -> Flow
        ensures { result ≡ (needs, sends) }
    {
        Flow { needs, sends }
    }

    /// How many free lines a written transition of a machine needs in a table, all by their numbers. It is 0 where there is no
    /// such machine, transition or table.
    pub fn needs(&self, machine: u16, transition: u32, table: u16) -> u64
        ensures { result ≡ count_in self.now.0 machine transition table }
    {
        self.needs.needs(machine, transition, table)
    }

    /// How many messages a written transition of a machine sends on a buffer of the machine's own, or to the network of a buffer, all
    /// by their numbers. It is 0 where there is no such machine, transition or buffer, and for a buffer from a network.
    pub fn sends(&self, machine: u16, transition: u32, buffer: u16) -> u64
        ensures { result ≡ sends_in self.now.1 machine transition buffer }
    {
        sends_in(&self.sends, machine, transition, buffer)
    }
}
