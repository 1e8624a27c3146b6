// Fields in code.
#![tactic(auto, using(crate::proofs::Adding::adds_two), unfolding(crate::specs::Writes::Writes))]

ghost use Rattle.std.specs.Prelude.{◌≡◌, ◌+◌};
ghost use Rattle.body_meaning.specs.Prelude.{reading};
ghost use Rattle.body_code.specs.Prelude.{field_by, field_in, field_numbered, field_read, field_through};
ghost use Rattle.emit_expressions.specs.Prelude.{Writes};

use crate::kinds::bare;
use crate::numbers::index16;
use action_code::Instr;
use body_code::{FieldAt, Left};
use body_meaning::Scope;
use ruby_base::{NoMemory, Seq};
use ruby_symbols::{FieldSymbol, Symbols, field_named};
use ruby_value::Kind;

fn field_numbered(fields: &[FieldSymbol], k: u16) -> Option<FieldAt>
    ensures { result ≡ field_numbered fields.now k }
{
    match fields.get(usize::from(k)) {
        Some(f) => Some(FieldAt {
            number: k,
            kind: bare(f.kind),
        }),
        None => None,
    }
}

/// The field of this name of the structure of this number.
pub fn field_in(symbols: &Symbols, structure: u16, name: &[u8]) -> Option<FieldAt>
    ensures { result ≡ field_in symbols.now structure name.now }
{
    let Some(t) = symbols.structures.get(usize::from(structure)) else {
        return None;
    };
    match field_named(&t.fields, name) {
        Some(k) => field_numbered(&t.fields, k),
        None => None,
    }
}

/// The field of this name of the structure that references of this kind are to.
pub fn field_through(symbols: &Symbols, k: Kind, name: &[u8]) -> Option<FieldAt>
    ensures { result ≡ field_through symbols.now k name.now }
{
    match k {
        Kind::Entry(n) | Kind::Tbe(n) => field_in(symbols, n, name),
        _ => None,
    }
}

fn kept_field(code: &mut Seq<Instr>, first: u16, f: FieldAt) -> Result<Left, NoMemory>
    ensures { Writes (field_by (λ k. Instr.Load (first + k)) (Some f)) result code.old code.new }
{
    let slot = index16(usize::from(first) + usize::from(f.number))?;
    code.push(Instr::Load(slot))?;
    Ok(Left::Value(f.kind))
}

/// The field of this name of what was left.
pub fn field_read(
    code: &mut Seq<Instr>,
    s: Scope<'_>,
    left: Left,
    name: &[u8],
) -> Result<Left, NoMemory>
    ensures { Writes (field_read (reading s.entry) left name.now) result code.old code.new }
{
    match left {
        Left::Value(k) => match field_through(s.symbols, k, name) {
            Some(f) => {
                code.push(Instr::Get(f.number))?;
                Ok(Left::Value(f.kind))
            }
            None => Ok(Left::Nothing),
        },
        Left::Inner(structure) => match field_in(s.symbols, structure, name) {
            Some(f) => {
                code.push(Instr::Infield(f.number))?;
                Ok(Left::Value(f.kind))
            }
            None => Ok(Left::Nothing),
        },
        Left::Made(structure) => match field_in(s.symbols, structure, name) {
            Some(f) => {
                code.push(Instr::Outfield(f.number))?;
                Ok(Left::Value(f.kind))
            }
            None => Ok(Left::Nothing),
        },
        Left::Kept(structure, first) => match field_in(s.symbols, structure, name) {
            Some(f) => kept_field(code, first, f),
            None => Ok(Left::Nothing),
        },
        _ => Ok(Left::Nothing),
    }
}
