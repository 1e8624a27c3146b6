//! The parameters and objects of a machine that are values.
ghost use Rattle.std.specs.Prelude.{◌≡◌, ◌++◌, IfOk, None, OnOk, neg_ℤ};
ghost use Rattle.std.specs.Option.{option_copied, option_map};
ghost use Rattle.ruby_value.specs.declared.value.Value.TheVariants as value;
ghost use Rattle.slicc_plan.specs.MachineValues.{value_of_type};
ghost use Rattle.slicc_plan.specs.Prelude.{literal_value, value_of_kind, written_value};
ghost use Rattle.declared_types.specs.Prelude.{type_of};
ghost use Rattle.type_numbers.specs.Prelude.{AreNumbered, trees_of};

use declaration_rules::is_built_in;
use declared_types::KnownType;
use ruby_base::{NoMemory, Seq, Text};
use ruby_symbols::FieldSymbol;
use ruby_value::{Kind, Value, default_of};
use slicc_ast::tree::Literal;
use slicc_plan::BuiltInType;
use std::alloc::Global;
use type_numbers::{TypeNumbers, plain_kind};

fn negated(n: i64) -> Result<Value, NoMemory>
    ensures { IfOk result (λ v. v ≡ value.Int (neg_ℤ n)) }
{
    match n.checked_neg() {
        None => Err(NoMemory),
        Some(i) => Ok(Value::Int(i)),
    }
}

fn literal_value(alloc: Global, k: Kind, literal: &Literal) -> Result<Value, NoMemory>
    ensures { IfOk result (λ v. v ≡ literal_value k literal.now) }
{
    match k {
        Kind::Int => match literal {
            Literal::Number(n, _) => Ok(Value::Int(*n)),
            Literal::Minus(n, _) => negated(*n),
            Literal::Quoted(..) | Literal::True(_) | Literal::False(_) => Ok(Value::Int(0)),
        },
        Kind::Bool => match literal {
            Literal::True(_) => Ok(Value::Bool(true)),
            Literal::Quoted(text, _) => { Ok(Value::Bool(text.as_slice() == b"True".as_slice())) }
            Literal::Number(..) | Literal::Minus(..) | Literal::False(_) => {
                Ok(Value::Bool(false))
            }
        },
        Kind::Enum(..)
        | Kind::Addr
        | Kind::Machine
        | Kind::Dest
        | Kind::Block
        | Kind::Entry(_)
        | Kind::Tbe(_) => default_of(alloc, &k),
    }
}

fn unwritten_value(alloc: Global, k: Kind, counts_cycles: bool) -> Result<Value, NoMemory>
    ensures { IfOk result (λ v. v ≡ written_value k counts_cycles None) }
{
    match k {
        Kind::Int => {
            if counts_cycles {
                Ok(Value::Int(1))
            } else {
                Ok(Value::Int(0))
            }
        }
        Kind::Bool
        | Kind::Enum(..)
        | Kind::Addr
        | Kind::Machine
        | Kind::Dest
        | Kind::Block
        | Kind::Entry(_)
        | Kind::Tbe(_) => default_of(alloc, &k),
    }
}

fn written_value(
    alloc: Global,
    k: Kind,
    counts_cycles: bool,
    literal: Option<&Literal>,
) -> Result<Value, NoMemory>
    ensures { IfOk result (λ v. v ≡ written_value k counts_cycles (option_copied literal.entry)) }
{
    match literal {
        Some(literal) => literal_value(alloc, k, literal),
        None => unwritten_value(alloc, k, counts_cycles),
    }
}

fn add_of_kind(
    alloc: Global,
    list: &mut Seq<FieldSymbol>,
    name: &[u8],
    t: Option<KnownType<'_>>,
    literal: Option<&Literal>,
    kind: Option<Kind>,
) -> Result<(), NoMemory>
    ensures { OnOk result (list.new ≡ list.old ++ value_of_kind name.now (option_map type_of t.entry) (option_copied literal.entry) kind) }
{
    let Some(kind) = kind else {
        return Ok(());
    };
    let name = Text::copied(alloc, name)?;
    let initial = written_value(alloc, kind, is_built_in(BuiltInType::Cycles, t), literal)?;
    list.push(FieldSymbol {
        name,
        kind,
        initial,
    })
}

/// Adds a parameter or an object of this name and type, if it is a value.
pub fn add_value<'a>(
    alloc: Global,
    list: &mut Seq<FieldSymbol>,
    types: &TypeNumbers<'a>,
    name: &[u8],
    t: Option<KnownType<'a>>,
    literal: Option<&Literal>,
) -> Result<(), NoMemory>
    requires { AreNumbered types.now }
    ensures { OnOk result (list.new ≡ list.old ++ value_of_type (trees_of types.now) name.now (option_map type_of t.entry) (option_copied literal.entry)) }
{
    match t {
        None => Ok(()),
        Some(known) => add_of_kind(alloc, list, name, t, literal, plain_kind(types, known)),
    }
}
