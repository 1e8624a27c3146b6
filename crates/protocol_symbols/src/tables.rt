//! The tables of lines of a machine, and its sequencer.
ghost use Rattle.std.specs.Prelude.{◌≡◌, ◌++◌, [], OnOk, unwrap_or, filter_map, slice_get};
ghost use Rattle.std.specs.Option.{option_map, option_copied};
ghost use Rattle.slicc_plan.specs.Prelude.{machine_declarations, line_number, table_of_sort, line_structure, table_sort, written_entries, no_structure, sequencer_in, bad_object_attributes};
ghost use Rattle.declared_types.specs.Prelude.{declarations_of, type_of, declaration_of};
ghost use Rattle.type_numbers.specs.Prelude.{AreNumbered, trees_of};

use crate::lines::{line_number, line_structure};
use declaration_rules::{is_built_in, number_value};
use declared_types::{Declared, KnownType, LineSort, Scope, first_attribute, type_in};
use ruby_base::{NoMemory, Seq, Text};
use ruby_symbols::{TableSort, TableSymbol};
use slicc_ast::tree::{Machine, Pairs};
use slicc_plan::BuiltInType;
use std::alloc::Global;
use type_numbers::TypeNumbers;

fn written_entries(pairs: &Pairs) -> u64
    ensures { result ≡ written_entries pairs.now }
{
    match first_attribute(pairs, b"entries") {
        None => 16,
        Some(a) => match number_value(a.value) {
            None => 16,
            Some(n) => n,
        },
    }
}

fn table_sort(t: Option<KnownType<'_>>, pairs: &Pairs) -> Option<TableSort>
    requires { bad_object_attributes (option_map type_of t) pairs.now ≡ [] }
    ensures { result ≡ table_sort (option_map type_of t.entry) pairs.now }
{
    if is_built_in(BuiltInType::Cache, t) {
        return Some(TableSort::Cache);
    }
    if is_built_in(BuiltInType::Directory, t) {
        return Some(TableSort::Directory);
    }
    if is_built_in(BuiltInType::TbeTable, t) {
        return Some(TableSort::Tbe {
            entries: written_entries(pairs) as u32,
        });
    }
    None
}

// The number of the structure of the lines of tables of a sort, of a machine that declares this.
fn structure_of<'a>(
    types: &TypeNumbers<'a>,
    m: &'a Machine,
    declarations: &[Declared<'a>],
    sort: TableSort,
) -> u16
    requires types { AreNumbered types.now }
    requires declarations { declarations_of declarations.now ≡ machine_declarations m.now }
    ensures { result ≡ unwrap_or (line_number (trees_of types.now) m.now (line_structure m.now sort)) no_structure }
{
    let lines = match sort {
        TableSort::Cache => line_structure(m, declarations, LineSort::Entry),
        TableSort::Directory => line_structure(m, declarations, LineSort::Directory),
        TableSort::Tbe { .. } => line_structure(m, declarations, LineSort::Tbe),
    };
    line_number(types, m, lines).unwrap_or(65535)
}

fn add_of_sort<'a>(
    alloc: Global,
    list: &mut Seq<TableSymbol>,
    types: &TypeNumbers<'a>,
    m: &'a Machine,
    declarations: &[Declared<'a>],
    name: &[u8],
    sort: Option<TableSort>,
) -> Result<(), NoMemory>
    requires types { AreNumbered types.now }
    requires declarations { declarations_of declarations.now ≡ machine_declarations m.now }
    ensures { OnOk result (list.new ≡ list.old ++ table_of_sort (trees_of types.now) m.now name.now sort) }
{
    let Some(sort) = sort else {
        return Ok(());
    };
    let structure = structure_of(types, m, declarations, sort);
    list.push(TableSymbol {
        name: Text::copied(alloc, name)?,
        sort,
        structure,
    })
}

/// Adds a parameter or an object of this name and type, if it is a table, of a machine that declares this.
pub fn add_table<'a>(
    alloc: Global,
    list: &mut Seq<TableSymbol>,
    types: &TypeNumbers<'a>,
    m: &'a Machine,
    declarations: &[Declared<'a>],
    name: &[u8],
    t: Option<KnownType<'a>>,
    pairs: &Pairs,
) -> Result<(), NoMemory>
    requires types { AreNumbered types.now }
    requires declarations { declarations_of declarations.now ≡ machine_declarations m.now }
    requires attributes { bad_object_attributes (option_map type_of t) pairs.now ≡ [] }
    ensures { OnOk result (list.new ≡ list.old ++ table_of_sort (trees_of types.now) m.now name.now (table_sort (option_map type_of t.entry) pairs.now)) }
{
    add_of_sort(
        alloc,
        list,
        types,
        m,
        declarations,
        name,
        table_sort(t, pairs),
    )
}

// The name of a sequencer that is declared.
fn sequencer_in<'a>(types: &TypeNumbers<'a>, m: &'a Machine, d: Declared<'a>) -> Option<&'a Text>
    ensures { option_copied result ≡ sequencer_in (trees_of types.now) m.now (declaration_of d.entry) }
{
    match d {
        Declared::Parameter(p) => {
            let t = type_in(&types.scopes, Scope::Within(m), &p.kind.text);
            if is_built_in(BuiltInType::Sequencer, t) {
                Some(&p.name.text)
            } else {
                None
            }
        }
        Declared::Object(o) => {
            let t = type_in(&types.scopes, Scope::Within(m), &o.kind.text);
            if is_built_in(BuiltInType::Sequencer, t) {
                Some(&o.name.text)
            } else {
                None
            }
        }
        _ => None,
    }
}

/// The name of the first sequencer among what a machine declares.
pub fn sequencer<'a>(
    types: &TypeNumbers<'a>,
    m: &'a Machine,
    declarations: &[Declared<'a>],
) -> Option<&'a Text>
    ensures { option_copied result ≡ slice_get (filter_map (sequencer_in (trees_of types.now) m.now) (declarations_of declarations.now)) 0 }
{
    for d in declarations {
        if let Some(name) = sequencer_in(types, m, *d) {
            return Some(name);
        }
    }
    None
}
