use crate::Thing;
use acts::Ref;
use built_in_acts::KeptMachines;
use ruby_base::{Seq, Text};
use ruby_symbols::{MachineSymbols, Symbols};
use run_journal::{FireNote, StopAt};
use slicc_ast::tree::Machine;

/// A name that a body has of its own, and what it is.
#[derive(Drop)]
pub struct Bound {
    pub name: Text,
    pub thing: Thing,
}

/// What the transition is about whose action this is.
#[derive(Clone, Copy)]
pub struct About {
    /// The byte address of its line.
    pub address: u64,
    /// The line's entry and its TBE, as the actions so far have left them.
    pub entry: Option<Ref>,
    pub tbe: Option<Ref>,
}

/// What a body has of its own at a place.
#[derive(Drop)]
pub struct Frame {
    /// Its formals and locals, and the messages that are looked at and made, the innermost first. A name hides those of its kind
    /// after it.
    pub names: Seq<Bound>,
    /// In an action what its transition is about, and else nothing.
    pub about: Option<About>,
}

/// How a statement ends.
#[derive(Drop)]
pub enum Flow {
    /// What follows it is done next.
    WentOn,
    /// It ends its body, which answers this.
    Returned(Thing),
    /// It ends its body, which is that of a port, by a `trigger`.
    Triggered(crate::thing::Trigger),
}

/// What may be assigned, found once.
#[derive(Drop)]
pub enum Place {
    /// What the body has under this name.
    Named(Text),
    /// The field of this number of the message that the body has under this name.
    Part(Text, u16),
    /// A field of the line that a reference names.
    Line(Ref, u16),
}

/// What the bodies of a machine are read by.
#[derive(Clone, Copy)]
pub struct Scope<'a> {
    /// The protocol's symbols.
    pub symbols: &'a Symbols,
    /// The machine's number.
    pub number: u16,
    /// Its symbols.
    pub machine: &'a MachineSymbols,
    /// Where its controllers keep the numbers of all machines' controllers, by which its built-in calls go.
    pub kept: KeptMachines,
    /// The machine as it is written, in which the functions that are called have their bodies.
    pub tree: &'a Machine,
}

/// What is known of a transition, as a stop tells it.
#[derive(Clone, Copy)]
pub struct Known {
    /// The byte address of its line.
    pub address: Option<u64>,
    /// The numbers of its state and its event in the machine.
    pub state: Option<u16>,
    pub event: Option<u16>,
}

/// What comes of a `trigger`, and of a port.
#[derive(Clone, Copy)]
pub enum Tried {
    /// No transition fired: it was stalled, or none was triggered.
    Waits,
    /// This transition fired.
    Fires(FireNote),
}

/// How a scan of a controller ends.
#[derive(Drop)]
pub enum RoundEnd {
    /// A port fired this transition.
    Fired(FireNote),
    /// No port fired.
    Idle,
    /// The controller had fired as many transitions in this cycle as it may, and nothing was done.
    Full,
    /// The scan met a fault.
    Stop(StopAt),
}
