use crate::types::FieldSymbol;
use ruby_base::{Seq, Text};
use ruby_value::{BufferPlace, Kind};

/// The sorts of tables of lines.
#[derive(Clone, Copy)]
pub enum TableSort {
    /// `CacheMemory`
    Cache,
    /// `DirectoryMemory`
    Directory,
    /// `TBETable`, with how many lines it may hold where no topology says so: 1 to 256.
    Tbe { entries: u32 },
}

/// A parameter or an object that is a table of lines.
pub struct TableSymbol {
    pub name: Text,
    pub sort: TableSort,
    /// The number of the structure of its lines: of the machine's entry type, directories' entry or TBE type. It is 65,535 where
    /// the machine has no such type, so that the table has no lines.
    pub structure: u16,
}

impl Drop for TableSymbol {
    fn drop(self) {
        let TableSymbol {
            name: _,
            sort: _,
            structure: _,
        } = self;
    }
}

/// A parameter or an object that is a `MessageBuffer`.
pub struct BufferSymbol {
    pub name: Text,
    /// Where its messages come from or go to, and for one to a network the field of its messages that names the receivers.
    pub place: BufferPlace,
    /// Whether its declaration calls it ordered.
    pub ordered: bool,
    /// The number of its messages' structure, or `None` where nothing says of which type they are: it carries none then.
    pub message: Option<u16>,
}

impl Drop for BufferSymbol {
    fn drop(self) {
        let BufferSymbol {
            name: _,
            place: _,
            ordered: _,
            message: _,
        } = self;
    }
}

/// An in port or an out port.
pub struct PortSymbol {
    pub name: Text,
    /// The number of the buffer that it is on. The type of its messages is that of the buffer.
    pub buffer: u16,
    /// Which declaration of the machine it is, counted from 0 in the text: an in port has its body there.
    pub declaration: u32,
}

impl Drop for PortSymbol {
    fn drop(self) {
        let PortSymbol {
            name: _,
            buffer: _,
            declaration: _,
        } = self;
    }
}

/// A formal of a function.
pub struct FormalSymbol {
    /// Its name, which it may lack.
    pub name: Option<Text>,
    pub kind: Kind,
}

impl Drop for FormalSymbol {
    fn drop(self) {
        let FormalSymbol { name: _, kind: _ } = self;
    }
}

/// A function that has a body.
pub struct FunctionSymbol {
    pub name: Text,
    /// Which declaration of the machine it is, counted from 0 in the text.
    pub declaration: u32,
    pub formals: Seq<FormalSymbol>,
    /// The kind of what it answers, or `None` where that is `void`.
    pub result: Option<Kind>,
}

impl Drop for FunctionSymbol {
    fn drop(self) {
        let FunctionSymbol {
            name: _,
            declaration: _,
            formals: _,
            result: _,
        } = self;
    }
}

/// An action.
pub struct ActionSymbol {
    pub name: Text,
    /// Which declaration of the machine it is, counted from 0 in the text.
    pub declaration: u32,
}

impl Drop for ActionSymbol {
    fn drop(self) {
        let ActionSymbol {
            name: _,
            declaration: _,
        } = self;
    }
}

/// The state that a transition names as the one after it.
#[derive(Clone, Copy)]
pub enum Next {
    /// The state of this number.
    To(u16),
    /// `*`: the state that the machine's function `getNextState` answers on the address, asked before the actions are done.
    Asked,
}

/// A transition as it is written: for each of these states and each of these events it does these actions, in this order.
pub struct TransitionSymbol {
    /// Each once.
    pub states: Seq<u16>,
    /// Each once.
    pub events: Seq<u16>,
    /// The state after it, where it names one. Else that is the state before it.
    pub next: Option<Next>,
    pub actions: Seq<u16>,
}

impl Drop for TransitionSymbol {
    fn drop(self) {
        let TransitionSymbol {
            states: _,
            events: _,
            next: _,
            actions: _,
        } = self;
    }
}

/// What a machine declares. All lists are in the order of the text, parameters before the rest.
pub struct MachineSymbols {
    pub name: Text,
    /// The number of its state declaration among the enumerations.
    pub states: u16,
    /// For each state the number of its access permission, a member of `AccessPermission`.
    pub permissions: Seq<u16>,
    /// The number of its `Event` among the enumerations.
    pub events: u16,
    /// Its parameters and objects that are tables of lines. The table after them is that of its values.
    pub tables: Seq<TableSymbol>,
    /// Its parameters and objects whose values are no references: the fields of line 0 of the table after its other tables. In
    /// that table the first controller's number and the count of each machine follow them. A topology may set numbers.
    pub values: Seq<FieldSymbol>,
    /// Its parameters and objects whose values are references to lines. Nothing is ever written to them, so each is a reference
    /// to nothing.
    pub references: Seq<FieldSymbol>,
    /// Its parameters and objects that are buffers.
    pub buffers: Seq<BufferSymbol>,
    /// The name of its parameter or object that is a `Sequencer`, where it has one.
    pub sequencer: Option<Text>,
    pub in_ports: Seq<PortSymbol>,
    pub out_ports: Seq<PortSymbol>,
    /// Its functions that have a body.
    pub functions: Seq<FunctionSymbol>,
    pub actions: Seq<ActionSymbol>,
    pub transitions: Seq<TransitionSymbol>,
    /// The number of the structure of its caches' lines, where it has one.
    pub entry: Option<u16>,
    /// The number of the structure of its directories' lines, where it has one.
    pub directory: Option<u16>,
    /// The number of the structure of its TBE tables' lines, where it has one.
    pub tbe: Option<u16>,
    /// The number of the function `getState`. Where there is none, the machine has the built-in map from lines to states.
    pub get_state: Option<u16>,
    /// The number of the function `setState`, which is there where `getState` is.
    pub set_state: Option<u16>,
    /// The number of the function `setAccessPermission`, where there is one.
    pub set_permission: Option<u16>,
    /// The number of the function `getNextState`, where there is one. A transition with the next state `*` asks it.
    pub get_next_state: Option<u16>,
    /// The number of the action `z_stall`, where there is one: a transition that lists it is a protocol stall.
    pub stall: Option<u16>,
}

impl Drop for MachineSymbols {
    fn drop(self) {
        let MachineSymbols {
            name: _,
            states: _,
            permissions: _,
            events: _,
            tables: _,
            values: _,
            references: _,
            buffers: _,
            sequencer: _,
            in_ports: _,
            out_ports: _,
            functions: _,
            actions: _,
            transitions: _,
            entry: _,
            directory: _,
            tbe: _,
            get_state: _,
            set_state: _,
            set_permission: _,
            get_next_state: _,
            stall: _,
        } = self;
    }
}
