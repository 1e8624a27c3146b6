//! Laws of the symbols of accepted protocols.
ghost use Rattle.std.specs.Prelude.{◌≡◌, ◌≤◌, ℕ, List, All, length};
ghost use Rattle.ruby_symbols.specs.declared.machine.MachineSymbols.{MachineSymbols};
ghost use Rattle.slicc_ast.specs.declared.tree.item.Tree.{Tree};
ghost use Rattle.slicc_ast.specs.declared.tree.machine.Machine.{Machine};
ghost use Rattle.slicc_plan.specs.Prelude.{HasCounts, IsAccepted, action_bodies, counts_by, counts_of, rows, symbols_of, needs, CarriesOneMessage, HasEntries, HasNumberedTypes, HasNumbers, HasNetworks, ReceivesOnce, HasOneNumbering, HasSymbols, need_by, rows_by};

/// There are at most 16 machines.
pub fn machines_are_few()
    ensures { (trees : List Tree) → IsAccepted trees → length (symbols_of trees).machines ≤ 16 }
{}

/// No list of a machine is longer than its numbers go, so that a name isn't found only where it isn't there.
pub fn lists_have_numbers()
    ensures { (trees : List Tree) → IsAccepted trees → All HasNumbers (symbols_of trees).machines }
{}

/// Nor is the list of enumerations, that of structures, that of an enumeration's members or that of a structure's fields.
pub fn types_have_numbers()
    ensures { (trees : List Tree) → IsAccepted trees → HasNumberedTypes (symbols_of trees) }
{}

/// A TBE table has 1 to 256 entries where no topology says how many.
pub fn tables_have_entries()
    ensures { (trees : List Tree) → IsAccepted trees → All HasEntries (symbols_of trees).machines }
{}

/// The virtual networks of buffers are those from 0 to 15.
pub fn networks_have_numbers()
    ensures { (trees : List Tree) → IsAccepted trees → All HasNetworks (symbols_of trees).machines }
{}

/// A machine has at most one buffer from a virtual network.
pub fn networks_are_received_once()
    ensures { (trees : List Tree) → IsAccepted trees → All ReceivesOnce (symbols_of trees).machines }
{}

/// All buffers on a virtual network, whatever machines they are of, have messages of one structure.
pub fn networks_carry_one_message()
    ensures { (trees : List Tree) → All (CarriesOneMessage trees) (symbols_of trees).machines }
{}

/// Tables, functions and actions have one numbering each: what rules and transitions number by names has the numbers of symbols.
pub fn names_have_one_numbering()
    ensures { (trees : List Tree) (k : ℕ) (m : Machine) (symbols : MachineSymbols) → IsAccepted trees
        → HasSymbols trees k m symbols → HasOneNumbering trees m symbols }
{}

/// The rows of a machine are those of its transitions as symbols, with their numbers.
pub fn rows_are_of_symbols()
    ensures { (trees : List Tree) (k : ℕ) (m : Machine) (symbols : MachineSymbols)
        → HasSymbols trees k m symbols → (state event : ℕ) → rows m state event ≡ rows_by symbols state event }
{}

/// What a transition needs of a table is read off it as a symbol, by the numbers of its actions.
pub fn needs_are_of_symbols()
    ensures { (trees : List Tree) (k : ℕ) (m : Machine) (symbols : MachineSymbols) → IsAccepted trees
        → HasSymbols trees k m symbols → (transition table : ℕ)
        → needs trees k transition table ≡ need_by symbols (action_bodies trees m) transition table }
{}

/// What a protocol has is counted from its symbols: the pairs of each transition on its own, since no two share one.
pub fn counts_are_of_symbols()
    ensures { (trees : List Tree) → IsAccepted trees → counts_of trees ≡ counts_by (symbols_of trees) }
{}

/// There are so few machines, states, events and pairs that their sums are numbers of 64 bits.
pub fn symbols_have_counts()
    ensures { (trees : List Tree) → IsAccepted trees → HasCounts (symbols_of trees) }
{}
