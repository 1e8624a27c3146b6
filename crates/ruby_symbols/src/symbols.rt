use crate::machine::MachineSymbols;
use crate::types::{EnumerationSymbol, StructureSymbol};
use ruby_base::Seq;

/// What a protocol declares. The built-in enumerations have the numbers 0 to 3: `MachineType`, `AccessPermission`,
/// `RubyRequestType` and `MessageSizeType`. After them come those that are declared, state declarations among them, in the order
/// of reading and of the text. Structures are numbered in that order too, external ones aside, and `RubyRequest` is the last of
/// them. The numbers after it are those of what the machines' parameters are kept in, machine by machine, and have no entry here.
pub struct Symbols {
    pub enumerations: Seq<EnumerationSymbol>,
    pub structures: Seq<StructureSymbol>,
    pub machines: Seq<MachineSymbols>,
}

// It is written out, so that a crate above proves a call where one goes, and not how each of its parts goes.
impl Drop for Symbols {
    fn drop(self) {
        let Symbols {
            enumerations: _,
            structures: _,
            machines: _,
        } = self;
    }
}
