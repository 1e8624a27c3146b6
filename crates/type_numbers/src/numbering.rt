//! The enumerations and structures of a protocol, in the order of their numbers.
ghost use Rattle.std.specs.Prelude.{◌≡◌, ◌++◌, [], ◌∷◌, IfOk, OnOk, filter, flat_map, map};
ghost use Rattle.slicc_plan.specs.Prelude.{IsAccepted, machine, named_declarations, within, made_in, made_with_its_own, scoped_declarations};
ghost use Rattle.declared_types.specs.Prelude.{declaration_of, declarations_of, scope_of};
ghost use Rattle.type_numbers.specs.Numbered.{AreLists, AreNumbered, has_sort, is_of_sort, scoped_of, trees_of};

use crate::members::defaults_of;
use declared_types::{Declared, Scope, Scopes, declared, is_external};
use machine_table::machines;
use ruby_base::{NoMemory, Seq};
use slicc_ast::tree::{Decl, Machine};
use std::alloc::Global;

/// The sorts of types that are numbered. State declarations are enumerations too.
#[derive(Clone, Copy)]
pub enum TypeSort {
    Enumeration,
    Structure,
}

/// A declaration, and where it is made.
#[derive(Clone, Copy)]
pub struct Scoped<'a> {
    pub scope: Scope<'a>,
    pub declaration: Declared<'a>,
}

/// The types of a protocol, in the order of their numbers.
#[derive(Drop)]
pub struct TypeNumbers<'a> {
    pub scopes: Scopes<'a>,
    /// The machines, in their order.
    pub machines: Seq<&'a Machine>,
    /// The enumerations and state declarations.
    pub enumerations: Seq<Scoped<'a>>,
    /// The structures that aren't external.
    pub structures: Seq<Scoped<'a>>,
    /// The number of each enumeration's default member.
    pub defaults: Seq<u16>,
}

// The lists of these types, before they are put beside their scopes.
#[derive(Drop)]
struct Lists<'a> {
    machines: Seq<&'a Machine>,
    enumerations: Seq<Scoped<'a>>,
    structures: Seq<Scoped<'a>>,
    defaults: Seq<u16>,
}

fn is_of_sort(sort: TypeSort, d: Declared<'_>) -> bool
    ensures { result ≡ is_of_sort sort (declaration_of d.entry) }
{
    match sort {
        TypeSort::Enumeration => matches!(d, Declared::Enumeration(_) | Declared::States(_)),
        TypeSort::Structure => match d {
            Declared::Structure(s) => !is_external(s),
            _ => false,
        },
    }
}

fn add_if<'a>(
    list: &mut Seq<Scoped<'a>>,
    sort: TypeSort,
    scope: Scope<'a>,
    declaration: Declared<'a>,
) -> Result<(), NoMemory>
    ensures { OnOk result (map scoped_of list.new ≡ map scoped_of list.old ++ filter (has_sort sort) (made_in (scope_of scope.entry) (declaration_of declaration.entry) ∷ [])) }
{
    if is_of_sort(sort, declaration) {
        return list.push(Scoped { scope, declaration });
    }
    Ok(())
}

fn add_named<'a>(
    list: &mut Seq<Scoped<'a>>,
    sort: TypeSort,
    m: &'a Machine,
    d: &'a Decl,
) -> Result<(), NoMemory>
    ensures { OnOk result (map scoped_of list.new ≡ map scoped_of list.old ++ filter (has_sort sort) (map (made_in (within m.now)) (named_declarations d.now))) }
{
    match declared(d) {
        None => Ok(()),
        Some(found) => add_if(list, sort, Scope::Within(m), found),
    }
}

fn add_all_named<'a>(
    list: &mut Seq<Scoped<'a>>,
    sort: TypeSort,
    m: &'a Machine,
    declarations: &'a [Decl],
) -> Result<(), NoMemory>
    ensures { OnOk result (map scoped_of list.new ≡ map scoped_of list.old ++ flat_map (λ d. filter (has_sort sort) (map (made_in (within m.now)) (named_declarations d))) declarations.now) }
{
    for d in declarations {
        add_named(list, sort, m, d)?;
    }
    Ok(())
}

fn add_machine<'a>(
    list: &mut Seq<Scoped<'a>>,
    sort: TypeSort,
    m: &'a Machine,
) -> Result<(), NoMemory>
    ensures { OnOk result (map scoped_of list.new ≡ map scoped_of list.old ++ filter (has_sort sort) (made_with_its_own (machine m.now))) }
{
    add_all_named(list, sort, m, &m.declarations)
}

fn add_with_its_own<'a>(
    list: &mut Seq<Scoped<'a>>,
    sort: TypeSort,
    d: Declared<'a>,
) -> Result<(), NoMemory>
    ensures { OnOk result (map scoped_of list.new ≡ map scoped_of list.old ++ filter (has_sort sort) (made_with_its_own (declaration_of d.entry))) }
{
    match d {
        Declared::Machine(m) => add_machine(list, sort, m),
        _ => add_if(list, sort, Scope::Everywhere, d),
    }
}

fn add_all<'a>(
    list: &mut Seq<Scoped<'a>>,
    sort: TypeSort,
    declarations: &[Declared<'a>],
) -> Result<(), NoMemory>
    ensures { OnOk result (map scoped_of list.new ≡ map scoped_of list.old ++ flat_map (λ d. filter (has_sort sort) (made_with_its_own d)) (declarations_of declarations.now)) }
{
    for d in declarations {
        add_with_its_own(list, sort, *d)?;
    }
    Ok(())
}

// The declarations of types of a sort, in the order of their numbers.
fn types_of_sort<'a>(
    alloc: Global,
    scopes: &Scopes<'a>,
    sort: TypeSort,
) -> Result<Seq<Scoped<'a>>, NoMemory>
    ensures { IfOk result (λ list. map scoped_of list ≡ filter (has_sort sort) (scoped_declarations scopes.now.trees.now)) }
{
    let mut list = Seq::new(alloc);
    add_all(&mut list, sort, scopes.declarations(0))?;
    Ok(list)
}

fn lists_of<'a>(alloc: Global, scopes: &Scopes<'a>) -> Result<Lists<'a>, NoMemory>
    requires { IsAccepted scopes.now.trees.now }
    ensures { IfOk result (AreLists scopes.now.trees.now) }
{
    let structures = types_of_sort(alloc, scopes, TypeSort::Structure)?;
    let machines = machines(alloc, scopes.trees)?;
    let enumerations = types_of_sort(alloc, scopes, TypeSort::Enumeration)?;
    let defaults = defaults_of(alloc, &enumerations)?;
    Ok(Lists {
        machines,
        enumerations,
        structures,
        defaults,
    })
}

/// The types of the protocol of these scopes, which is accepted.
pub fn number_types<'a>(alloc: Global, scopes: Scopes<'a>) -> Result<TypeNumbers<'a>, NoMemory>
    requires { IsAccepted scopes.trees.now }
    ensures trees { IfOk result (λ types. trees_of types ≡ scopes.entry.trees.now) }
    ensures numbered { IfOk result (λ types. AreNumbered types) }
{
    match lists_of(alloc, &scopes) {
        Err(e) => Err(e),
        Ok(lists) => Ok(TypeNumbers {
            scopes,
            machines: lists.machines,
            enumerations: lists.enumerations,
            structures: lists.structures,
            defaults: lists.defaults,
        }),
    }
}
