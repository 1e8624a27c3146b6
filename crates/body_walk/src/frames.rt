// What a body has of its own, with another thing under a name, and after a block; and messages that are being made.
ghost use Rattle.std.specs.Prelude.{◌≡◌, IfOk, OnOk, position, map};
ghost use Rattle.body_meaning.specs.Prelude.{is_named, leave, rebind, new_message, reading};
ghost use Rattle.ruby_symbols.specs.declared.types.FieldSymbol.{FieldSymbol};

use acts::{Fields, NoMemory};
use body_meaning::{Bound, Frame, Scope, Thing};
use ruby_base::Text;
use ruby_symbols::FieldSymbol;
use std::alloc::Global;

fn place_bound(names: &[Bound], name: &[u8]) -> Option<usize>
    ensures { result ≡ position (is_named name.now) names.now }
{
    names.iter().position(|b| b.name.as_slice() == name)
}

fn made(alloc: Global, name: &[u8], thing: Thing) -> Result<Bound, NoMemory>
    ensures { IfOk result (λ b. (b.name ≡ name.now) × (b.thing ≡ thing)) }
{
    Ok(Bound {
        name: Text::copied(alloc, name)?,
        thing,
    })
}

/// Puts another thing under a name, where it is bound; of two of its text the innermost is meant.
pub fn rebind(alloc: Global, frame: &mut Frame, name: &[u8], thing: Thing) -> Result<(), NoMemory>
    ensures { OnOk result (frame.new ≡ rebind name.now thing frame.old) }
{
    let Some(i) = place_bound(&frame.names, name) else {
        return Ok(());
    };
    let bound = made(alloc, name, thing)?;
    frame.names.replace(i, bound);
    Ok(())
}

/// Leaves a block that began with n names: those that it bound are gone.
#[tactic(auto, using(crate::proofs::Blocks::outermost_more, crate::proofs::Blocks::outermost_all))]
pub fn leave(n: usize, frame: &mut Frame)
    ensures { frame.new ≡ leave n frame.old }
{
    while frame.names.len() > n {
        frame.names.remove(0);
    }
}

fn initial_fields(alloc: Global, fields: &[FieldSymbol]) -> Result<Fields, NoMemory>
    ensures { IfOk result (λ made. made ≡ map (λ (f : FieldSymbol). f.initial) fields.now) }
{
    let mut values = Vec::with_capacity(alloc, fields.len())?;
    for f in fields {
        values.push(f.initial.clone()?)?;
    }
    Ok(Fields::of(values))
}

/// A message with this structure, as it is before anything is written to it, if there is such a structure.
pub fn new_message(alloc: Global, s: Scope<'_>, structure: u16) -> Result<Option<Thing>, NoMemory>
    ensures { IfOk result (λ t. t ≡ new_message (reading s.entry) structure) }
{
    match s.symbols.structures.get(usize::from(structure)) {
        Some(t) => Ok(Some(Thing::Message(structure, initial_fields(alloc, &t.fields)?))),
        None => Ok(None),
    }
}
