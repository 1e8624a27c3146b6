ghost use Rattle.std.specs.Prelude.{◌≡◌, [], ◌∷◌, cond, flat_map, fold, IfOk, OnOk};
ghost use Rattle.std.specs.Option.{option_copied, option_map};
ghost use Rattle.slicc_plan.specs.Prelude.{is_directory, number_in, name_of_type, with_name, declared_in};
ghost use Rattle.declared_types.specs.Prelude.{declaration_of, type_of, scope_at};
ghost use Rattle.slicc_flow.specs.Tables.{is_of_sort, is_sort_name};

use declared_types::{Declared, KnownType, Scopes};
use ruby_base::{NameIndex, NoMemory};
use slicc_plan::BuiltInType;
use std::alloc::Global;
use std::marker::Model;

/// What names stand for in the bodies of a machine.
#[derive(Drop)]
pub struct Names {
    functions: NameIndex,
    tables: NameIndex,
    directories: NameIndex,
}

impl Model for Names {
    ghost use Rattle.slicc_plan.specs.Prelude.{Names as NamesRecord};

    ghost Value = { NamesRecord };

    ghost view = { λ x. record { functions = x.functions; tables = x.tables; directories = x.directories } };
}

impl Names {
    /// The names of the functions of a machine that have a body, of its tables and of those that are directories.
    pub fn new(functions: NameIndex, tables: NameIndex, directories: NameIndex) -> Names
        ensures functions { result.functions ≡ functions }
        ensures tables { result.tables ≡ tables }
        ensures directories { result.directories ≡ directories }
    {
        Names {
            functions,
            tables,
            directories,
        }
    }

    /// The number of the machine's function of this name that has a body.
    pub fn function(&self, name: &[u8]) -> Option<u32>
        ensures { result ≡ number_in self.now.functions name.now }
    {
        self.functions.find(name)
    }

    /// The number of the machine's table of this name.
    pub fn table(&self, name: &[u8]) -> Option<u32>
        ensures { result ≡ number_in self.now.tables name.now }
    {
        self.tables.find(name)
    }

    /// Whether there is a name, and it is that of a directory.
    pub fn is_directory(&self, name: Option<&[u8]>) -> bool
        ensures { result ≡ is_directory self.now (option_copied name.entry) }
    {
        match name {
            Some(name) => self.directories.find(name).is_some(),
            None => false,
        }
    }
}

/// Which tables of a machine.
#[derive(Clone, Copy)]
pub enum TableSort {
    Any,
    Directory,
}

fn is_of(sort: TableSort, t: Option<KnownType<'_>>) -> bool
    ensures { result ≡ is_of_sort sort (option_map type_of t.entry) }
{
    match t {
        Some(KnownType::BuiltIn(b)) => match sort {
            TableSort::Any => matches!(
                b,
                BuiltInType::Cache | BuiltInType::Directory | BuiltInType::TbeTable
            ),
            TableSort::Directory => matches!(b, BuiltInType::Directory),
        },
        _ => false,
    }
}

fn add_if(is_meant: bool, names: &mut NameIndex, name: &[u8]) -> Result<(), NoMemory>
    ensures { OnOk result (names.new ≡ fold with_name names.old (cond is_meant (name.now ∷ []) [])) }
{
    if is_meant {
        names.add(name)?;
    }
    Ok(())
}

fn add_table(
    names: &mut NameIndex,
    scopes: &Scopes<'_>,
    scope: usize,
    sort: TableSort,
    d: Declared<'_>,
) -> Result<(), NoMemory>
    ensures { OnOk result (names.new ≡ fold with_name names.old
        (name_of_type (is_sort_name sort scopes.now.trees.now scope) (declaration_of d.entry))) }
{
    match d {
        Declared::Parameter(p) => {
            let is_meant = is_of(sort, scopes.type_in(scope, p.kind.text.as_slice()));
            add_if(is_meant, names, p.name.text.as_slice())
        }
        Declared::Object(o) => {
            let is_meant = is_of(sort, scopes.type_in(scope, o.kind.text.as_slice()));
            add_if(is_meant, names, o.name.text.as_slice())
        }
        _ => Ok(()),
    }
}

/// The names of the tables of a sort that are declared in a scope.
pub fn table_names(
    alloc: Global,
    scopes: &Scopes<'_>,
    scope: usize,
    sort: TableSort,
) -> Result<NameIndex, NoMemory>
    ensures { IfOk result (λ r. r ≡ fold with_name [] (flat_map (name_of_type (is_sort_name sort scopes.now.trees.now scope))
        (declared_in scopes.now.trees.now (scope_at scopes.now.trees.now scope)))) }
{
    let mut names = NameIndex::new(alloc);
    for d in scopes.declarations(scope) {
        add_table(&mut names, scopes, scope, sort, *d)?;
    }
    Ok(names)
}
