//! The states, events and transitions of a machine.
ghost use Rattle.std.specs.Prelude.{◌≡◌, ◌<◌, ◌++◌, IfSome, OnOk, length, map, position};
ghost use Rattle.std.specs.Option.{option_copied, option_map};
ghost use Rattle.std.specs.Str.{bytes_eq};
ghost use Rattle.slicc_ast.specs.declared.tree.declaration.State.{State};
ghost use Rattle.slicc_plan.specs.Declarations.{enumeration};
ghost use Rattle.slicc_plan.specs.Prelude.{states, number_of_found, permission_number, permissions_found, transition_symbol};
ghost use Rattle.declared_types.specs.Types.{texts_of};
ghost use Rattle.type_numbers.specs.Prelude.{AreNumbered, trees_of};

use crate::names::place_named;
use declared_types::{KnownType, Scope, fixed_members};
use ruby_base::{NoMemory, Seq};
use ruby_symbols::TransitionSymbol;
use slicc_ast::tree::{Enumeration, Machine, State, States};
use slicc_plan::{BuiltInType, Written};
use type_numbers::{TypeNumbers, declared_number, kept_or};

/// The number of these states of a machine among the enumerations.
pub fn states_number<'a>(types: &TypeNumbers<'a>, m: &'a Machine, s: Option<&'a States>) -> u16
    requires { AreNumbered types.now }
    ensures { result ≡ number_of_found (trees_of types.now) m.now (option_map states (option_copied s.entry)) }
{
    match s {
        None => 65535,
        Some(s) => {
            declared_number(types, KnownType::States(Scope::Within(m), s)).unwrap_or(65535)
        }
    }
}

/// The number of these events of a machine among the enumerations.
pub fn events_number<'a>(types: &TypeNumbers<'a>, m: &'a Machine, e: Option<&'a Enumeration>) -> u16
    requires { AreNumbered types.now }
    ensures { result ≡ number_of_found (trees_of types.now) m.now (option_map enumeration (option_copied e.entry)) }
{
    match e {
        None => 65535,
        Some(e) => {
            declared_number(types, KnownType::Enumeration(Scope::Within(m), e)).unwrap_or(65535)
        }
    }
}

fn number_among(names: &[&str], text: &[u8]) -> Option<usize>
    ensures place { result ≡ position (λ name. bytes_eq name text.now) (texts_of names.now) }
    ensures within { IfSome result (λ n. n < length names.now) }
{
    place_named(names, text)
}

fn permission_number(text: &[u8]) -> u16
    ensures { result ≡ permission_number text.now }
{
    kept_or(
        number_among(fixed_members(BuiltInType::AccessPermission), text),
        2,
    )
}

fn add_permissions_of(list: &mut Seq<u16>, members: &[State]) -> Result<(), NoMemory>
    ensures { OnOk result (list.new ≡ list.old ++ map (λ (s : State). permission_number s.permission.text) members.now) }
{
    for s in members {
        list.push(permission_number(&s.permission.text))?;
    }
    Ok(())
}

/// Adds the numbers of the permissions of a machine's states.
pub fn add_permissions(list: &mut Seq<u16>, s: Option<&States>) -> Result<(), NoMemory>
    ensures { OnOk result (list.new ≡ list.old ++ permissions_found (option_map states (option_copied s.entry))) }
{
    match s {
        None => Ok(()),
        Some(s) => add_permissions_of(list, &s.members),
    }
}

fn transition_symbol(t: Written) -> TransitionSymbol
    ensures { result ≡ transition_symbol t }
{
    TransitionSymbol {
        states: t.states,
        events: t.events,
        next: t.next,
        actions: t.actions,
    }
}

/// Adds the transitions of a machine as they are written.
pub fn add_transitions(
    list: &mut Seq<TransitionSymbol>,
    written: Seq<Written>,
) -> Result<(), NoMemory>
    ensures { OnOk result (list.new ≡ list.old ++ map transition_symbol written) }
{
    for t in written.into_vec() {
        list.push(transition_symbol(t))?;
    }
    Ok(())
}
