// What a body has of its own as its code is written.
ghost use Rattle.std.specs.Prelude.{◌≡◌, ◌++◌, ◌==◌, IfOk, OnOk, find, map, slice_get};
ghost use Rattle.action_code.specs.Prelude.{bare as bare_kind};
ghost use Rattle.ruby_symbols.specs.declared.types.FieldSymbol.{FieldSymbol};
ghost use Rattle.ruby_value.specs.Prelude.{equal_kinds};
ghost use Rattle.body_code.specs.Prelude.{field_kinds, kept_for, scratch_for, with_name};
ghost use Rattle.body_code.specs.Locals.{kept_or, scratch_or};
ghost use Rattle.body_code.specs.declared.own.MessageKept.{MessageKept};
ghost use Rattle.body_code.specs.declared.own.Scratch.{Scratch};

use body_code::{Home, Locals, MessageKept, NameAt, Scratch};
use emit_expressions::{bare, index16};
use ruby_base::{NoMemory, Seq, Text};
use ruby_symbols::{FieldSymbol, Symbols};
use ruby_value::Kind;
use std::alloc::Global;

fn name_at(alloc: Global, name: &[u8], home: Home) -> Result<NameAt, NoMemory>
    ensures { IfOk result (λ n. (n.name ≡ name.now) × (n.home ≡ home)) }
{
    Ok(NameAt {
        name: Text::copied(alloc, name)?,
        home,
    })
}

fn name_copied(alloc: Global, n: &NameAt) -> Result<NameAt, NoMemory>
    ensures { IfOk result (λ copy. copy ≡ n.now) }
{
    name_at(alloc, &n.name, n.home)
}

/// The same names once more. A block adds to them, and after it they are as before.
pub(crate) fn names_copied(alloc: Global, names: &[NameAt]) -> Result<Seq<NameAt>, NoMemory>
    ensures { IfOk result (λ copy. copy ≡ names.now) }
{
    let mut copy = Vec::with_capacity(alloc, names.len())?;
    for n in names {
        copy.push(name_copied(alloc, n)?)?;
    }
    Ok(Seq::of(copy))
}

/// Adds a name, which hides others of its text.
pub fn bind(alloc: Global, names: &mut Seq<NameAt>, name: &[u8], home: Home) -> Result<(), NoMemory>
    ensures { OnOk result (names.new ≡ with_name name.now home names.old) }
{
    let bound = name_at(alloc, name, home)?;
    names.insert(0, bound)?;
    Ok(())
}

fn scratch_found(scratch: &[Scratch], kind: Kind) -> Option<Scratch>
    ensures { result ≡ find (λ (s : Scratch). equal_kinds s.kind kind) scratch.now }
{
    scratch.iter().copied().find(|s| s.kind.equals(kind))
}

fn scratch_or(locals: &mut Locals, kind: Kind, found: Option<Scratch>) -> Result<u16, NoMemory>
    ensures slot { IfOk result (λ slot. slot ≡ (scratch_or kind locals.old found).slot) }
    ensures locals { OnOk result (locals.new ≡ (scratch_or kind locals.old found).locals) }
{
    if let Some(s) = found {
        return Ok(s.slot);
    }
    let slot = index16(locals.kinds.len())?;
    locals.kinds.push(kind)?;
    locals.scratch.push(Scratch { kind, slot })?;
    Ok(slot)
}

/// The local that a value of this kind is set aside in.
pub(crate) fn scratch_for(locals: &mut Locals, kind: Kind) -> Result<u16, NoMemory>
    ensures slot { IfOk result (λ slot. slot ≡ (scratch_for kind locals.old).slot) }
    ensures locals { OnOk result (locals.new ≡ (scratch_for kind locals.old).locals) }
{
    let found = scratch_found(&locals.scratch, kind);
    scratch_or(locals, kind, found)
}

fn kept_found(kept: &[MessageKept], structure: u16) -> Option<MessageKept>
    ensures { result ≡ find (λ (m : MessageKept). m.structure == structure) kept.now }
{
    kept.iter().copied().find(|m| m.structure == structure)
}

// The kinds of fields, as locals have them.
fn kinds_added(kinds: &mut Seq<Kind>, fields: &[FieldSymbol]) -> Result<(), NoMemory>
    ensures { OnOk result (kinds.new
        ≡ kinds.old ++ map (λ (f : FieldSymbol). bare_kind f.kind) fields.now) }
{
    for f in fields {
        kinds.push(bare(f.kind))?;
    }
    Ok(())
}

fn field_kinds_added(
    kinds: &mut Seq<Kind>,
    symbols: &Symbols,
    structure: u16,
) -> Result<(), NoMemory>
    ensures { OnOk result (kinds.new
        ≡ kinds.old ++ field_kinds (slice_get symbols.now.structures structure)) }
{
    match symbols.structures.get(usize::from(structure)) {
        Some(t) => kinds_added(kinds, &t.fields),
        None => Ok(()),
    }
}

fn kept_or(
    locals: &mut Locals,
    symbols: &Symbols,
    structure: u16,
    found: Option<MessageKept>,
) -> Result<u16, NoMemory>
    ensures slot { IfOk result
        (λ slot. slot ≡ (kept_or symbols.now structure locals.old found).slot) }
    ensures locals { OnOk result
        (locals.new ≡ (kept_or symbols.now structure locals.old found).locals) }
{
    if let Some(m) = found {
        return Ok(m.first);
    }
    let first = index16(locals.kinds.len())?;
    field_kinds_added(&mut locals.kinds, symbols, structure)?;
    locals.kept.push(MessageKept { structure, first })?;
    Ok(first)
}

/// The first of the locals in which the fields of a message with this structure are kept.
pub(crate) fn kept_for(
    locals: &mut Locals,
    symbols: &Symbols,
    structure: u16,
) -> Result<u16, NoMemory>
    ensures slot { IfOk result (λ slot. slot ≡ (kept_for symbols.now structure locals.old).slot) }
    ensures locals { OnOk result
        (locals.new ≡ (kept_for symbols.now structure locals.old).locals) }
{
    let found = kept_found(&locals.kept, structure);
    kept_or(locals, symbols, structure, found)
}
