//! The types that functions of states should take and answer.
ghost use Rattle.std.specs.Prelude.{◌≡◌};
ghost use Rattle.std.specs.Option.{option_copied, option_map};
ghost use Rattle.slicc_plan.specs.Prelude.{states as states_declaration, are_wanted, is_own_states, is_own_structure, is_wanted};
ghost use Rattle.declared_types.specs.Prelude.{type_of};
ghost use Rattle.machine_rules.specs.MachinesIn.{IsMachineIn};
ghost use Rattle.machine_rules.specs.WantedTypes.{wanted_of, wanted_present};

use crate::rule::MachineIn;
use declaration_rules::is_built_in;
use declared_types::{KnownType, Scope};
use machine_table::states;
use slicc_ast::tree::{Formal, States, Structure};
use slicc_plan::BuiltInType;

/// The type that a function of states should take or answer.
#[derive(Clone, Copy)]
pub enum Wanted<'a> {
    BuiltIn(BuiltInType),
    /// A reference to a line of this structure.
    Line(&'a Structure),
    /// The machine's states.
    OwnState,
}

// Whether a type is the machine's own of a name.
fn is_own_structure(text: &[u8], t: Option<KnownType<'_>>) -> bool
    ensures { result ≡ is_own_structure text.now (option_map type_of t.entry) }
{
    match t {
        Some(KnownType::Structure(Scope::Within(_), s)) => s.name.text.as_slice() == text,
        _ => false,
    }
}

fn is_own_states(states: Option<&States>, t: Option<KnownType<'_>>) -> bool
    ensures { result ≡ is_own_states (option_map states_declaration (option_copied states.entry)) (option_map type_of t.entry) }
{
    let Some(states) = states else {
        return false;
    };
    match t {
        Some(KnownType::Enumeration(Scope::Within(_), e)) => {
            states.name.text.as_slice() == e.name.text.as_slice()
        }
        Some(KnownType::States(Scope::Within(_), s)) => {
            states.name.text.as_slice() == s.name.text.as_slice()
        }
        _ => false,
    }
}

/// Whether a type is the one that is wanted.
pub fn is_wanted(m: MachineIn<'_, '_>, wanted: Wanted<'_>, t: Option<KnownType<'_>>) -> bool
    requires { IsMachineIn m }
    ensures { result ≡ is_wanted m.entry.machine.now (wanted_of wanted.entry) (option_map type_of t.entry) }
{
    match wanted {
        Wanted::BuiltIn(b) => is_built_in(b, t),
        Wanted::Line(s) => is_own_structure(s.name.text.as_slice(), t),
        Wanted::OwnState => is_own_states(states(m.machine), t),
    }
}

/// Whether formals have the types that are wanted, of which some may not be.
pub fn are_wanted(m: MachineIn<'_, '_>, wanted: &[Option<Wanted<'_>>], formals: &[Formal]) -> bool
    requires { IsMachineIn m }
    ensures { result ≡ are_wanted m.entry.scopes.now.trees.now m.entry.machine.now (wanted_present wanted.now) formals.now }
{
    let [first, wanted @ ..] = wanted else {
        return formals.is_empty();
    };
    let Some(w) = *first else {
        return are_wanted(m, wanted, formals);
    };
    match formals {
        [] => false,
        [f, formals @ ..] => {
            is_wanted(m, w, m.scopes.type_in(m.scope, f.kind.text.as_slice()))
                && are_wanted(m, wanted, formals)
        }
    }
}
