//! The declarations of a scope, in the order of the text.
ghost use Rattle.std.specs.Prelude.{◌≡◌, ◌++◌, [], IfOk, OnOk, map, flat_map};
ghost use Rattle.std.specs.Option.{option_map};
ghost use Rattle.slicc_plan.specs.Buffers.{listed};
ghost use Rattle.slicc_plan.specs.Prelude.{global_declarations, item_declarations, machine_declarations, named_declarations, parameter};
ghost use Rattle.declared_types.specs.Prelude.{declaration_of, declarations_of};

use crate::lent::Declared;
use ruby_base::{NoMemory, Seq};
use slicc_ast::tree::{Decl, Item, Machine, Parameter, Tree};
use std::alloc::Global;

fn add_item<'a>(list: &mut Seq<Declared<'a>>, item: &'a Item) -> Result<(), NoMemory>
    ensures { OnOk result (declarations_of list.new ≡ declarations_of list.old ++ item_declarations item.now) }
{
    match item {
        Item::Include(..) => Ok(()),
        Item::Enumeration(e) => list.push(Declared::Enumeration(e)),
        Item::Structure(s) => list.push(Declared::Structure(s)),
        Item::Machine(m) => list.push(Declared::Machine(m)),
    }
}

fn add_items<'a>(list: &mut Seq<Declared<'a>>, items: &'a [Item]) -> Result<(), NoMemory>
    ensures { OnOk result (declarations_of list.new ≡ declarations_of list.old ++ flat_map item_declarations items.now) }
{
    for item in items {
        add_item(list, item)?;
    }
    Ok(())
}

/// What is declared right in a protocol.
pub fn global_list<'a>(alloc: Global, trees: &'a [Tree]) -> Result<Seq<Declared<'a>>, NoMemory>
    ensures { IfOk result (λ list. declarations_of list ≡ global_declarations trees.now) }
{
    let mut list = Seq::new(alloc);
    for tree in trees {
        add_items(&mut list, &tree.items)?;
    }
    Ok(list)
}

fn add_parameters<'a>(
    list: &mut Seq<Declared<'a>>,
    parameters: &'a [Parameter],
) -> Result<(), NoMemory>
    ensures { OnOk result (declarations_of list.new ≡ declarations_of list.old ++ map parameter parameters.now) }
{
    for p in parameters {
        list.push(Declared::Parameter(p))?;
    }
    Ok(())
}

/// What a declaration of a machine declares by a name. A transition has none.
pub fn declared<'a>(d: &'a Decl) -> Option<Declared<'a>>
    ensures { listed (option_map declaration_of result) ≡ named_declarations d.now }
{
    match d {
        Decl::States(s) => Some(Declared::States(s)),
        Decl::Enumeration(e) => Some(Declared::Enumeration(e)),
        Decl::Structure(s) => Some(Declared::Structure(s)),
        Decl::OutPort(p) => Some(Declared::OutPort(p)),
        Decl::InPort(p) => Some(Declared::InPort(p)),
        Decl::Action(a) => Some(Declared::Action(a)),
        Decl::Transition(_) => None,
        Decl::Function(f) => Some(Declared::Function(f)),
        Decl::Object(o) => Some(Declared::Object(o)),
    }
}

fn add_declared<'a>(list: &mut Seq<Declared<'a>>, d: &'a Decl) -> Result<(), NoMemory>
    ensures { OnOk result (declarations_of list.new ≡ declarations_of list.old ++ named_declarations d.now) }
{
    match declared(d) {
        None => Ok(()),
        Some(found) => list.push(found),
    }
}

fn add_declarations<'a>(
    list: &mut Seq<Declared<'a>>,
    declarations: &'a [Decl],
) -> Result<(), NoMemory>
    ensures { OnOk result (declarations_of list.new ≡ declarations_of list.old ++ flat_map named_declarations declarations.now) }
{
    for d in declarations {
        add_declared(list, d)?;
    }
    Ok(())
}

/// What is declared right in a machine.
pub fn machine_list<'a>(alloc: Global, m: &'a Machine) -> Result<Seq<Declared<'a>>, NoMemory>
    ensures { IfOk result (λ list. declarations_of list ≡ machine_declarations m.now) }
{
    let mut list = Seq::new(alloc);
    add_parameters(&mut list, &m.parameters)?;
    add_declarations(&mut list, &m.declarations)?;
    Ok(list)
}
