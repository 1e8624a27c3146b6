use action_code::Verified;
use machine_table::Tables;
use ruby_base::Seq;
use slicc_flow::Flow;

/// A protocol as action code, with what is known of its machines. No tree is in it.
#[derive(Drop)]
pub struct Parts {
    pub program: Verified,
    pub tables: Tables,
    pub flow: Flow,
    /// For each machine one, in the order of the text.
    pub heads: Seq<Head>,
}

/// By which bodies a machine is run, and what is looked at before a transition.
#[derive(Drop)]
pub struct Head {
    /// The bodies of its in ports, in the order of the text.
    pub ports: Seq<u32>,
    /// The body that reads the state of a line by the machine's `getState`, where it has one. Else the built-in map has the states.
    pub reads: Option<u32>,
    /// The body that answers the state to enter by the machine's `getNextState`, where a transition has `*`.
    pub asks: Option<u32>,
    /// The body of its first written transition, and 0 where it has none. Those of the others follow.
    pub first: u32,
    /// The number of the action `z_stall`, where there is one.
    pub stall: Option<u16>,
    /// The tables that `check_allocate` statements in its actions name, ascending.
    pub checked: Seq<u16>,
    /// The buffers of its own and those to a network, ascending.
    pub buffers: Seq<u16>,
}
