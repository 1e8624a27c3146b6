//! The kinds of values that are pushed.
ghost use Rattle.std.specs.Prelude.{◌≡◌};
ghost use Rattle.action_code.specs.Values.{bare, can_push, kind_of, kind_of_reference, names_line};

use crate::program::TableDecl;
use crate::tables::{kind_of_table, table_at};
use ruby_value::{Kind, Ref, Value};

// How many lines there are.
const LINES: u64 = 288_230_376_151_711_744;

/// The kind as it is on the stack, without an enumeration's default member.
pub fn bare(kind: Kind) -> Kind
    ensures { result ≡ bare kind }
{
    match kind {
        Kind::Enum(enumeration, _) => Kind::Enum(enumeration, 0),
        other => other,
    }
}

fn kind_of_reference(tables: &[TableDecl], r: Option<Ref>, to_nothing: Kind) -> Kind
    ensures { result ≡ kind_of_reference tables.now r to_nothing }
{
    match r {
        None => to_nothing,
        Some(r) => match table_at(tables, r.table) {
            None => to_nothing,
            Some(t) => kind_of_table(tables, t),
        },
    }
}

/// The kind of a value beside which there is the number of this structure.
pub fn kind_of(tables: &[TableDecl], v: &Value, structure: u16) -> Kind
    ensures { result ≡ kind_of tables.now v.now structure }
{
    match v {
        Value::Bool(_) => Kind::Bool,
        Value::Int(_) => Kind::Int,
        Value::Enum(enumeration, _) => Kind::Enum(*enumeration, 0),
        Value::Addr(_) => Kind::Addr,
        Value::Machine(_) => Kind::Machine,
        Value::Dest(_) => Kind::Dest,
        Value::Block(_) => Kind::Block,
        Value::Entry(r) => kind_of_reference(tables, *r, Kind::Entry(structure)),
        Value::Tbe(r) => kind_of_reference(tables, *r, Kind::Tbe(structure)),
    }
}

fn names_line(tables: &[TableDecl], r: Option<Ref>) -> bool
    ensures { result ≡ names_line tables.now r }
{
    match r {
        None => true,
        Some(r) => table_at(tables, r.table).is_some() && r.line < LINES,
    }
}

/// Whether a reference names a table that is there and a line; other values do.
pub fn can_push(tables: &[TableDecl], v: &Value) -> bool
    ensures { result ≡ can_push tables.now v.now }
{
    match v {
        Value::Entry(r) | Value::Tbe(r) => names_line(tables, *r),
        _ => true,
    }
}
