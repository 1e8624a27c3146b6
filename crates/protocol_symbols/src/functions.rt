//! The functions of a machine, and their formals.
ghost use Rattle.std.specs.Prelude.{◌≡◌, ◌++◌, IfOk, OnOk, map};
ghost use Rattle.slicc_plan.specs.Prelude.{machine_declarations, formal_symbol, function_with_body, kind_in};
ghost use Rattle.declared_types.specs.Prelude.{declarations_of};
ghost use Rattle.type_numbers.specs.Prelude.{AreNumbered, trees_of};
ghost use Rattle.std.specs.Option.{option_map};
ghost use Rattle.slicc_ast.specs.declared.tree.name.Name.{Name};

use crate::lines::value_kind;
use crate::names::in_32_bits;
use declared_types::{Declared, Scope, type_in};
use ruby_base::{NoMemory, Seq, Text};
use ruby_symbols::{FormalSymbol, FunctionSymbol};
use ruby_value::Kind;
use slicc_ast::tree::{Formal, Formals, Function, Machine, Name, TypeName};
use std::alloc::Global;
use type_numbers::TypeNumbers;

fn with_body<'a>(
    alloc: Global,
    types: &TypeNumbers<'a>,
    m: &'a Machine,
    declarations: &[Declared<'a>],
    number: usize,
    name: &[u8],
    kind: &TypeName,
    formals: &Formals,
) -> Result<FunctionSymbol, NoMemory>
    requires types { AreNumbered types.now }
    requires declarations { declarations_of declarations.now ≡ machine_declarations m.now }
    ensures { IfOk result (λ f. f ≡ record { name = name.now; declaration = number; formals = map (formal_symbol (trees_of types.now) m.now) formals.now.items; result = kind_in (trees_of types.now) m.now kind.now }) }
{
    let declaration = in_32_bits(number)?;
    let answer = kind_in(types, m, declarations, kind);
    let name = Text::copied(alloc, name)?;
    let mut list = Seq::new(alloc);
    add_formals(alloc, &mut list, types, m, declarations, &formals.items)?;
    Ok(FunctionSymbol {
        name,
        declaration,
        formals: list,
        result: answer,
    })
}

/// Adds a function of this number, if it has a body.
pub fn add_function<'a>(
    alloc: Global,
    list: &mut Seq<FunctionSymbol>,
    types: &TypeNumbers<'a>,
    m: &'a Machine,
    declarations: &[Declared<'a>],
    number: usize,
    f: &Function,
) -> Result<(), NoMemory>
    requires types { AreNumbered types.now }
    requires declarations { declarations_of declarations.now ≡ machine_declarations m.now }
    ensures { OnOk result (list.new ≡ list.old ++ function_with_body (trees_of types.now) m.now number f.now) }
{
    match f {
        Function::Plain {
            kind,
            name,
            formals,
            body: Some(_),
            ..
        } => list.push(with_body(
            alloc,
            types,
            m,
            declarations,
            number,
            &name.text,
            kind,
            formals,
        )?),
        Function::Plain { body: None, .. } | Function::Skipped(_) => Ok(()),
    }
}

/// The kind of the values of the type of this name in a machine that declares this, where it has values there.
pub fn kind_in<'a>(
    types: &TypeNumbers<'a>,
    m: &'a Machine,
    declarations: &[Declared<'a>],
    kind: &TypeName,
) -> Option<Kind>
    requires types { AreNumbered types.now }
    requires declarations { declarations_of declarations.now ≡ machine_declarations m.now }
    ensures { result ≡ kind_in (trees_of types.now) m.now kind.now }
{
    let t = type_in(&types.scopes, Scope::Within(m), &kind.text);
    value_kind(types, m, declarations, t)
}

fn name_of(alloc: Global, name: &Option<Name>) -> Result<Option<Text>, NoMemory>
    ensures { IfOk result (λ text. text ≡ option_map (λ (n : Name). n.text) name.now) }
{
    match name {
        None => Ok(None),
        Some(name) => Ok(Some(Text::copied(alloc, &name.text)?)),
    }
}

fn formal_symbol<'a>(
    alloc: Global,
    types: &TypeNumbers<'a>,
    m: &'a Machine,
    declarations: &[Declared<'a>],
    f: &Formal,
) -> Result<FormalSymbol, NoMemory>
    requires types { AreNumbered types.now }
    requires declarations { declarations_of declarations.now ≡ machine_declarations m.now }
    ensures { IfOk result (λ s. s ≡ formal_symbol (trees_of types.now) m.now f.now) }
{
    let kind = kind_in(types, m, declarations, &f.kind);
    Ok(FormalSymbol {
        name: name_of(alloc, &f.name)?,
        kind: kind.unwrap_or(Kind::Bool),
    })
}

/// Adds the formals of a function of a machine that declares this.
pub fn add_formals<'a>(
    alloc: Global,
    list: &mut Seq<FormalSymbol>,
    types: &TypeNumbers<'a>,
    m: &'a Machine,
    declarations: &[Declared<'a>],
    formals: &[Formal],
) -> Result<(), NoMemory>
    requires types { AreNumbered types.now }
    requires declarations { declarations_of declarations.now ≡ machine_declarations m.now }
    ensures { OnOk result (list.new ≡ list.old ++ map (formal_symbol (trees_of types.now) m.now) formals.now) }
{
    for f in formals {
        list.push(formal_symbol(alloc, types, m, declarations, f)?)?;
    }
    Ok(())
}
