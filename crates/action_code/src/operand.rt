ghost use Rattle.std.specs.Prelude.{◌≡◌};
ghost use Rattle.std.specs.Option.{option_copied};
ghost use Rattle.action_code.specs.Operations.{accepts, is_line_in, is_state};

use crate::program::{MachineDecl, TableDecl, TableSort};
use crate::tables::{is_reference_to, kind_of_table, same_sort, table_at, tables_of};
use ruby_value::Kind;

/// What an operand of an instruction has to be.
#[derive(Clone, Copy)]
pub enum Operand {
    /// A value of this kind.
    Value(Kind),
    /// Any value: what has to be there isn't known, since the instruction names what isn't there.
    Anything,
    /// A reference, to a line of any structure.
    Reference,
    /// A reference to an entry, which is a line of a cache.
    Entry,
    /// A reference to a line of a cache or of a directory.
    Line,
    /// A reference to a TBE, which is a line of a TBE table.
    Tbe,
    /// An address, or a reference to a line of the cache that the operation is on.
    AddressOrLine,
    /// A state of the body's machine.
    State,
}

fn is_line_in(tables: &[TableDecl], table: Option<TableDecl>, kind: Kind) -> bool
    ensures { result ≡ is_line_in tables.now table kind }
{
    match table {
        Some(t) if same_sort(t.sort, TableSort::Cache) => kind_of_table(tables, t).equals(kind),
        _ => kind.is_reference(),
    }
}

fn is_state(m: Option<&MachineDecl>, kind: Kind) -> bool
    ensures { result ≡ is_state (option_copied m.entry) kind }
{
    match m {
        None => true,
        Some(m) => Kind::Enum(m.states, 0).equals(kind),
    }
}

/// Whether a value of this kind serves as the operand, of an instruction of that machine on the table of that number.
pub fn accepts(m: Option<&MachineDecl>, on: u16, operand: Operand, kind: Kind) -> bool
    ensures { result ≡ accepts (option_copied m.entry) on operand kind }
{
    let tables = tables_of(m);
    match operand {
        Operand::Value(wanted) => wanted.equals(kind),
        Operand::Anything => true,
        Operand::Reference => kind.is_reference(),
        Operand::Entry => is_reference_to(tables, TableSort::Cache, kind),
        Operand::Line => {
            is_reference_to(tables, TableSort::Cache, kind)
                || is_reference_to(tables, TableSort::Directory, kind)
        }
        Operand::Tbe => is_reference_to(tables, TableSort::Tbe, kind),
        Operand::AddressOrLine => {
            matches!(kind, Kind::Addr) || is_line_in(tables, table_at(tables, on), kind)
        }
        Operand::State => is_state(m, kind),
    }
}
