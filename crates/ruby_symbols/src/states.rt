//! What the functions of states take.
ghost use Rattle.std.specs.Prelude.{◌≡◌, ◌++◌, IfOk, OnOk};
ghost use Rattle.ruby_symbols.specs.States.{get_state_arguments, set_permission_arguments, set_state_arguments, where_there};

use crate::machine::MachineSymbols;
use ruby_base::{NoMemory, Seq};
use std::alloc::Global;

/// An argument of `getState`, `setState` or `setAccessPermission`.
#[derive(Clone, Copy)]
pub enum StateArgument {
    /// A reference to the line's TBE.
    Tbe,
    /// A reference to the line's entry.
    Entry,
    Address,
    State,
}

fn add_where_there(
    list: &mut Seq<StateArgument>,
    argument: StateArgument,
    structure: Option<u16>,
) -> Result<(), NoMemory>
    ensures { OnOk result (list.new ≡ list.old ++ where_there argument structure) }
{
    match structure {
        None => Ok(()),
        Some(_) => list.push(argument),
    }
}

/// What `getState` takes in a machine that has it.
pub fn get_state_arguments(
    alloc: Global,
    m: &MachineSymbols,
) -> Result<Seq<StateArgument>, NoMemory>
    ensures { IfOk result (λ list. list ≡ get_state_arguments m.now) }
{
    let mut list = Seq::new(alloc);
    add_where_there(&mut list, StateArgument::Tbe, m.tbe)?;
    add_where_there(&mut list, StateArgument::Entry, m.entry)?;
    list.push(StateArgument::Address)?;
    Ok(list)
}

/// What `setState` takes in a machine that has it.
pub fn set_state_arguments(
    alloc: Global,
    m: &MachineSymbols,
) -> Result<Seq<StateArgument>, NoMemory>
    ensures { IfOk result (λ list. list ≡ set_state_arguments m.now) }
{
    let mut list = get_state_arguments(alloc, m)?;
    list.push(StateArgument::State)?;
    Ok(list)
}

/// What `setAccessPermission` takes in a machine that has it.
pub fn set_permission_arguments(
    alloc: Global,
    m: &MachineSymbols,
) -> Result<Seq<StateArgument>, NoMemory>
    ensures { IfOk result (λ list. list ≡ set_permission_arguments m.now) }
{
    let mut list = Seq::new(alloc);
    add_where_there(&mut list, StateArgument::Entry, m.entry)?;
    list.push(StateArgument::Address)?;
    list.push(StateArgument::State)?;
    Ok(list)
}
