//! The declarations of a scope with an index from their names.
ghost use Rattle.std.specs.Prelude.{◌≡◌, [], length, IfOk, OnOk, Some};
ghost use Rattle.std.specs.Option.{option_map};
ghost use Rattle.ruby_base.specs.Prelude.{number_among, with_name};
ghost use Rattle.slicc_plan.specs.Prelude.{first_named, function_name, name_of};
ghost use Rattle.declared_types.specs.Lent.{declaration_of, declarations_of, scope_of, text_of, texts_of};
ghost use Rattle.declared_types.specs.Table.{IsIndexed, with_first};

use crate::lent::{Declared, Scope};
use ruby_base::{NameIndex, NoMemory, Seq};
use slicc_ast::tree::{Function, Name};
use std::alloc::Global;

/// What is declared right in a scope, in which a name is found at once.
#[derive(Drop)]
pub struct Table<'a> {
    pub scope: Scope<'a>,
    pub declarations: Seq<Declared<'a>>,
    names: NameIndex,
    // The number of the first declaration of each name.
    firsts: Seq<usize>,
    ghost same_length: { length firsts ≡ length names },
    ghost indexed: { IsIndexed names firsts (texts_of declarations) },
}

fn function_name(f: &Function) -> &Name
    ensures { result.now ≡ function_name f.now }
{
    match f {
        Function::Plain { name, .. } => name,
        Function::Skipped(s) => &s.name,
    }
}

/// The name that is declared.
pub fn name_of<'a>(d: Declared<'a>) -> &'a Name
    ensures name { name_of (declaration_of d.entry) ≡ Some result.now }
    ensures text { result.now.text ≡ text_of d.entry }
{
    match d {
        Declared::Machine(m) => &m.name,
        Declared::Enumeration(e) => &e.name,
        Declared::Structure(s) => &s.name,
        Declared::States(s) => &s.name,
        Declared::Parameter(p) => &p.name,
        Declared::Object(o) => &o.name,
        Declared::OutPort(p) => &p.name,
        Declared::InPort(p) => &p.name,
        Declared::Action(a) => &a.name,
        Declared::Function(f) => function_name(f),
    }
}

// Notes a declaration's name and number where it is the first one of that name.
fn name_text<'a>(d: Declared<'a>) -> &'a [u8]
    ensures { result.now ≡ text_of d.entry }
{
    name_of(d).text.as_slice()
}

fn add_first(
    names: &mut NameIndex,
    firsts: &mut Seq<usize>,
    text: &[u8],
    number: usize,
) -> Result<(), NoMemory>
    requires { length firsts.old ≡ length names.old }
    ensures names { OnOk result (names.new ≡ with_name names.old text.now) }
    ensures firsts { OnOk result (firsts.new ≡ with_first names.old firsts.old text.now number) }
{
    names.add(text)?;
    if names.len() > firsts.len() {
        firsts.push(number)?;
    }
    Ok(())
}

fn add_firsts<'a>(
    names: &mut NameIndex,
    firsts: &mut Seq<usize>,
    declarations: &[Declared<'a>],
) -> Result<(), NoMemory>
    requires names { names.old ≡ [] }
    requires firsts { firsts.old ≡ [] }
    ensures same_length { OnOk result (length firsts.new ≡ length names.new) }
    ensures indexed { OnOk result (IsIndexed names.new firsts.new (texts_of declarations.now)) }
{
    for (number, d) in declarations.iter().enumerate() {
        add_first(names, firsts, name_text(*d), number)?;
    }
    Ok(())
}

/// The table of a scope with these declarations.
pub fn table_of<'a>(
    alloc: Global,
    scope: Scope<'a>,
    declarations: Seq<Declared<'a>>,
) -> Result<Table<'a>, NoMemory>
    ensures scope { IfOk result (λ t. t.scope ≡ scope.entry) }
    ensures declarations { IfOk result (λ t. t.declarations ≡ declarations.entry) }
{
    let mut names = NameIndex::new(alloc);
    let mut firsts = Seq::new(alloc);
    add_firsts(&mut names, &mut firsts, &declarations)?;
    Ok(Table {
        scope,
        declarations,
        names,
        firsts,
    })
}

impl<'a> Table<'a> {
    // The number of the first declaration of a name.
    fn first_number(&self, name: &[u8]) -> Option<usize>
        ensures { result ≡ number_among (texts_of self.now.declarations) name.now }
    {
        match self.names.find(name) {
            None => None,
            Some(number) => self.firsts.get(number as usize).copied(),
        }
    }

    /// The first declaration of a name, where there is one.
    pub fn first_named(&self, name: &[u8]) -> Option<Declared<'a>>
        ensures { option_map declaration_of result ≡ first_named name.now (declarations_of self.now.declarations) }
    {
        match self.first_number(name) {
            None => None,
            Some(number) => self.declarations.get(number).copied(),
        }
    }
}
