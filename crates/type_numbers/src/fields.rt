//! The fields of structures as symbols, with the values that they have before anything is written to them.
ghost use Rattle.std.specs.Prelude.{◌≡◌, ◌++◌, IfOk, IfSome, OnOk, flat_map, ◌<◌, ◌^◌, unwrap_or};
ghost use Rattle.slicc_plan.specs.Prelude.{field_of_type, field_symbol, field_symbols, number_value, field_kind, initial_of, value_by, value_written};
ghost use Rattle.declared_types.specs.Prelude.{scope_of, attribute_of, type_of};
ghost use Rattle.type_numbers.specs.Fields.{field_seen};
ghost use Rattle.type_numbers.specs.Numbered.{AreNumbered, trees_of};
ghost use Rattle.type_numbers.specs.Small.{NamesFewMembers, IsOfFewMembers};
ghost use Rattle.std.specs.Option.{option_map};
ghost use Rattle.ruby_value.specs.Prelude.{default_value};

use crate::members::{kept_or, member_written};
use crate::numbering::TypeNumbers;
use crate::numbers::kind_or_bool;
use declaration_rules::number_value;
use declared_types::{Attribute, KnownType, Scope, first_attribute, is_word, type_in};
use ruby_base::{NoMemory, Seq, Text};
use ruby_symbols::FieldSymbol;
use ruby_value::{Kind, Value, default_of};
use slicc_ast::tree::{Member, PairValue, Pairs, Structure, TypeName};
use std::alloc::Global;

/// A field of a structure that is declared in a scope.
#[derive(Clone, Copy)]
pub struct Field<'a> {
    pub scope: Scope<'a>,
    pub kind: &'a TypeName,
    pub pairs: &'a Pairs,
}

fn field_of_type<'a>(
    alloc: Global,
    types: &TypeNumbers<'a>,
    name: &[u8],
    f: Field<'a>,
) -> Result<FieldSymbol, NoMemory>
    requires types { AreNumbered types.now }
    requires scope { NamesFewMembers (trees_of types.now) (scope_of f.scope) }
    ensures { IfOk result (λ s. s ≡ field_of_type (trees_of types.now) name.now (field_seen f.entry)) }
{
    let t = type_in(&types.scopes, f.scope, &f.kind.text);
    let kind = kind_or_bool(types, t);
    let name = Text::copied(alloc, name)?;
    let initial = initial_value(alloc, types, f, t, kind)?;
    Ok(FieldSymbol {
        name,
        kind,
        initial,
    })
}

fn add_field<'a>(
    alloc: Global,
    list: &mut Seq<FieldSymbol>,
    types: &TypeNumbers<'a>,
    scope: Scope<'a>,
    member: &'a Member,
) -> Result<(), NoMemory>
    requires types { AreNumbered types.now }
    requires scope { NamesFewMembers (trees_of types.now) (scope_of scope) }
    ensures { OnOk result (list.new ≡ list.old ++ field_symbol (trees_of types.now) (scope_of scope.entry) member.now) }
{
    match member {
        Member::Field {
            kind,
            name,
            pairs,
            ..
        } => list.push(field_of_type(alloc, types, &name.text, Field { scope, kind, pairs })?),
        Member::Method { .. } | Member::Skipped(_) => Ok(()),
    }
}

fn add_fields<'a>(
    alloc: Global,
    list: &mut Seq<FieldSymbol>,
    types: &TypeNumbers<'a>,
    scope: Scope<'a>,
    members: &'a [Member],
) -> Result<(), NoMemory>
    requires types { AreNumbered types.now }
    requires scope { NamesFewMembers (trees_of types.now) (scope_of scope) }
    ensures { OnOk result (list.new ≡ list.old ++ flat_map (field_symbol (trees_of types.now) (scope_of scope.entry)) members.now) }
{
    for member in members {
        add_field(alloc, list, types, scope, member)?;
    }
    Ok(())
}

/// The fields of a structure that is declared in a scope, in the order of the text.
pub fn structure_fields<'a>(
    alloc: Global,
    types: &TypeNumbers<'a>,
    scope: Scope<'a>,
    s: &'a Structure,
) -> Result<Seq<FieldSymbol>, NoMemory>
    requires types { AreNumbered types.now }
    requires scope { NamesFewMembers (trees_of types.now) (scope_of scope) }
    ensures { IfOk result (λ list. list ≡ field_symbols (trees_of types.now) (scope_of scope.entry) s.now) }
{
    let mut list = Seq::new(alloc);
    add_fields(alloc, &mut list, types, scope, &s.members)?;
    Ok(list)
}

// No number of SLICC is above 2^63 - 1.
fn number_or_zero(value: &PairValue) -> u64
    ensures value { result ≡ unwrap_or (number_value value.now) 0 }
    ensures bound { result < 2 ^ 63 }
{
    match value {
        PairValue::Number(n) => { if *n < 0 { 0 } else { *n as u64 } }
        PairValue::Quoted(_) | PairValue::Name(_) => number_value(value).unwrap_or(0),
    }
}

fn value_written(
    alloc: Global,
    types: &TypeNumbers<'_>,
    text: &[u8],
    t: KnownType<'_>,
    k: Kind,
    value: &PairValue,
) -> Result<Value, NoMemory>
    requires types { AreNumbered types.now }
    requires members { IsOfFewMembers (type_of t) }
    ensures { IfOk result (λ v. v ≡ value_written (trees_of types.now) text.now (type_of t.entry) k value.now) }
{
    match k {
        Kind::Int => Ok(Value::Int(number_or_zero(value) as i64)),
        Kind::Addr => Ok(Value::Addr(number_or_zero(value))),
        Kind::Bool => Ok(Value::Bool(is_word(value, b"true"))),
        Kind::Enum(number, member) => Ok(Value::Enum(
            number,
            kept_or(member_written(types, text, t, value), member),
        )),
        Kind::Machine | Kind::Dest | Kind::Block | Kind::Entry(_) | Kind::Tbe(_) => {
            default_of(alloc, &k)
        }
    }
}

// With the default that may be written.
fn value_by(
    alloc: Global,
    types: &TypeNumbers<'_>,
    text: &[u8],
    t: KnownType<'_>,
    k: Kind,
    attribute: Option<Attribute<'_>>,
) -> Result<Value, NoMemory>
    requires types { AreNumbered types.now }
    requires members { IsOfFewMembers (type_of t) }
    ensures { IfOk result (λ v. v ≡ value_by (trees_of types.now) text.now (type_of t.entry) k (option_map attribute_of attribute.entry)) }
{
    match attribute {
        None => default_of(alloc, &k),
        Some(a) => value_written(alloc, types, text, t, k, a.value),
    }
}

/// The value that a field has before anything is written to it, where this is its type and its kind.
pub fn initial_value<'a>(
    alloc: Global,
    types: &TypeNumbers<'a>,
    f: Field<'a>,
    t: Option<KnownType<'a>>,
    k: Kind,
) -> Result<Value, NoMemory>
    requires types { AreNumbered types.now }
    requires members { IfSome (option_map type_of t) IsOfFewMembers }
    requires kind { k ≡ field_kind (trees_of types.now) (field_seen f) }
    ensures { IfOk result (λ v. v ≡ initial_of (trees_of types.now) (field_seen f.entry) (option_map type_of t.entry)) }
{
    match t {
        None => default_of(alloc, &k),
        Some(t) => value_by(
            alloc,
            types,
            &f.kind.text,
            t,
            k,
            first_attribute(f.pairs, b"default"),
        ),
    }
}
