//! What is declared of a body's machine.
ghost use Rattle.std.specs.Prelude.{◌≡◌, slice_get};
ghost use Rattle.std.specs.Option.{option_copied};
ghost use Rattle.action_code.specs.Tables.{buffer_at, has_map, has_table, is_of, is_of_another, is_reference_to, kind_of_table, machine_of, may_be_both, may_be_of, same_sort, tables_of};

use crate::instr::Code;
use crate::program::{BufferDecl, MachineDecl, Program, TableDecl, TableSort};
use ruby_value::Kind;

// In the place of a structure's number, for a type that the machine doesn't have.
const NO_STRUCTURE: u16 = 65_535;

/// The machine of a body, where it is declared.
pub fn machine_of<'a>(p: &'a Program, c: &Code) -> Option<&'a MachineDecl>
    ensures { option_copied result ≡ machine_of p.now c.now }
{
    p.machines.get(usize::from(c.machine))
}

pub fn tables_of<'a>(m: Option<&'a MachineDecl>) -> &'a [TableDecl]
    ensures { result.now ≡ tables_of (option_copied m.entry) }
{
    match m {
        None => &[],
        Some(m) => m.tables.as_slice(),
    }
}

pub fn table_at(tables: &[TableDecl], n: u16) -> Option<TableDecl>
    ensures { result ≡ slice_get tables.now n }
{
    tables.get(usize::from(n)).copied()
}

pub fn buffer_at(m: Option<&MachineDecl>, n: u16) -> Option<BufferDecl>
    ensures { result ≡ buffer_at (option_copied m.entry) n }
{
    match m {
        None => None,
        Some(m) => m.buffers.get(usize::from(n)).copied(),
    }
}

pub fn has_map(m: Option<&MachineDecl>) -> bool
    ensures { result ≡ has_map (option_copied m.entry) }
{
    match m {
        None => false,
        Some(m) => m.built_in_map,
    }
}

pub fn same_sort(a: TableSort, b: TableSort) -> bool
    ensures { result ≡ same_sort a b }
{
    match (a, b) {
        (TableSort::Cache, TableSort::Cache) => true,
        (TableSort::Directory, TableSort::Directory) => true,
        (TableSort::Tbe, TableSort::Tbe) => true,
        (TableSort::Parameters, TableSort::Parameters) => true,
        _ => false,
    }
}

// Whether a table of this sort has this structure.
fn is_of(tables: &[TableDecl], sort: TableSort, structure: u16) -> bool
    ensures { result ≡ is_of tables.now sort structure }
{
    tables
        .iter()
        .any(|t| same_sort(t.sort, sort) && t.structure == structure)
}

fn has_table(tables: &[TableDecl], sort: TableSort) -> bool
    ensures { result ≡ has_table tables.now sort }
{
    tables.iter().any(|t| same_sort(t.sort, sort))
}

// Whether a table shows that the structure is of another sort.
fn is_of_another(tables: &[TableDecl], sort: TableSort, structure: u16) -> bool
    ensures { result ≡ is_of_another tables.now sort structure }
{
    is_of(tables, TableSort::Parameters, structure)
        || match sort {
            TableSort::Cache => is_of(tables, TableSort::Directory, structure),
            TableSort::Directory => is_of(tables, TableSort::Cache, structure),
            TableSort::Tbe | TableSort::Parameters => false,
        }
}

// Whether tables of this sort may have this structure, as far as the tables show.
fn may_be_of(tables: &[TableDecl], sort: TableSort, structure: u16) -> bool
    ensures { result ≡ may_be_of tables.now sort structure }
{
    is_of(tables, sort, structure)
        || !has_table(tables, sort)
            && (structure == NO_STRUCTURE || !is_of_another(tables, sort, structure))
}

// Whether it may be that of TBEs and that of entries at once.
fn may_be_both(tables: &[TableDecl], structure: u16) -> bool
    ensures { result ≡ may_be_both tables.now structure }
{
    structure != NO_STRUCTURE
        && may_be_of(tables, TableSort::Tbe, structure)
        && (may_be_of(tables, TableSort::Cache, structure)
            || may_be_of(tables, TableSort::Directory, structure))
}

/// The kind of references to the lines of a table.
pub fn kind_of_table(tables: &[TableDecl], t: TableDecl) -> Kind
    ensures { result ≡ kind_of_table tables.now t }
{
    let n = t.structure;
    if same_sort(t.sort, TableSort::Tbe) || n != NO_STRUCTURE && is_of(tables, TableSort::Tbe, n) {
        Kind::Tbe(n)
    } else {
        Kind::Entry(n)
    }
}

/// Whether a kind is that of references to lines of tables of this sort, as far as the tables show.
pub fn is_reference_to(tables: &[TableDecl], sort: TableSort, kind: Kind) -> bool
    ensures { result ≡ is_reference_to tables.now sort kind }
{
    match kind {
        Kind::Entry(n) => {
            may_be_of(tables, sort, n)
                && (!same_sort(sort, TableSort::Tbe)
                    || may_be_both(tables, n) && !is_of(tables, TableSort::Tbe, n))
        }
        Kind::Tbe(n) => {
            may_be_of(tables, sort, n)
                && (same_sort(sort, TableSort::Tbe) || may_be_both(tables, n))
        }
        _ => false,
    }
}
