//! Operators, and what has one operand.
ghost use Rattle.std.specs.Prelude.{◌≡◌};
ghost use Rattle.slicc_plan.specs.Prelude.{cast_meaning, cast_to, from_operand, joined, operator_type, wanted_left, wanted_right, type_named, of_built_in};
ghost use Rattle.declared_types.specs.Prelude.{type_of};
ghost use Rattle.body_types.specs.Prelude.{IsEnvironment, environment_of, found_of, given_of, typed_of, AreLines, meaning_of, wanted_of};

use body_types::{
    Environment, Given, Lines, Meaning, Typed, Wanted, fits, like_it, type_named, unfit,
    value_of_type, wrong_type_name,
};
use call_types::plain;
use declared_types::KnownType;
use slicc_ast::tree::{Operator, TypeName};
use slicc_plan::{BuiltInType, earlier_of_two};

/// What a built-in type's values are wanted as.
pub fn of_built_in<'a>(b: BuiltInType) -> Wanted<'a>
    ensures { wanted_of result ≡ of_built_in b }
{
    Wanted::OneOf(Some(KnownType::BuiltIn(b)), None)
}

fn wanted_left<'a>(operator: Operator) -> Wanted<'a>
    ensures { wanted_of result ≡ wanted_left operator }
{
    match operator {
        Operator::Or | Operator::And => of_built_in(BuiltInType::Bool),
        Operator::Equal | Operator::Unequal => Wanted::Comparable,
        _ => of_built_in(BuiltInType::Int),
    }
}

fn wanted_right<'a>(operator: Operator, left: Meaning<'a>) -> Wanted<'a>
    ensures { wanted_of result ≡ wanted_right operator (meaning_of left.entry) }
{
    match operator {
        Operator::Equal | Operator::Unequal => like_it(left),
        _ => wanted_left(operator),
    }
}

fn operator_type(operator: Operator) -> BuiltInType
    ensures { result ≡ operator_type operator }
{
    match operator {
        Operator::Plus | Operator::Minus | Operator::Times => BuiltInType::Int,
        _ => BuiltInType::Bool,
    }
}

/// An operator between two operands.
pub fn joined<'a>(
    env: Environment<'_, 'a>,
    operator: Operator,
    left: Given<'a>,
    right: Given<'a>,
) -> Typed<'a>
    requires { IsEnvironment env }
    ensures { found_of (typed_of result) ≡ found_of (joined (environment_of env.entry) operator (given_of left.entry) (given_of right.entry)) }
{
    let first = earlier_of_two(left.typed.broken, right.typed.broken);
    let unfit_left = unfit(
        env.lines,
        wanted_left(operator),
        left.place,
        left.typed.meaning,
    );
    let first = earlier_of_two(first, unfit_left);
    let wanted = wanted_right(operator, left.typed.meaning);
    let unfit_right = unfit(env.lines, wanted, right.place, right.typed.meaning);
    let first = earlier_of_two(first, unfit_right);
    plain(
        Meaning::Value(KnownType::BuiltIn(operator_type(operator))),
        first,
    )
}

/// Of an operand alone, where something is answered of this type.
pub fn from_operand<'a>(
    env: Environment<'_, 'a>,
    wanted: Wanted<'a>,
    answered: BuiltInType,
    g: Given<'a>,
) -> Typed<'a>
    requires { IsEnvironment env }
    ensures { found_of (typed_of result) ≡ found_of (from_operand (environment_of env.entry) (wanted_of wanted.entry) answered (given_of g.entry)) }
{
    let first = earlier_of_two(
        g.typed.broken,
        unfit(env.lines, wanted, g.place, g.typed.meaning),
    );
    plain(Meaning::Value(KnownType::BuiltIn(answered)), first)
}

// A value of this type, unless it is told that it is none.
fn cast_meaning<'a>(lines: Lines<'a>, t: KnownType<'a>, meaning: Meaning<'a>) -> Meaning<'a>
    requires { AreLines lines }
    ensures { meaning_of result ≡ cast_meaning lines.entry.machine.now (type_of t.entry) (meaning_of meaning.entry) }
{
    if fits(lines, Wanted::OneOf(Some(t), None), meaning) {
        value_of_type(lines, Some(t))
    } else {
        Meaning::Unknown
    }
}

/// A value of the type whose name this is.
pub fn cast_to<'a>(env: Environment<'_, 'a>, target: &TypeName, g: Given<'a>) -> Typed<'a>
    requires { IsEnvironment env }
    ensures { found_of (typed_of result) ≡ found_of (cast_to (environment_of env.entry) target.now (given_of g.entry) (type_named (environment_of env.entry) target.now.text)) }
{
    match type_named(env, target.text.as_slice()) {
        None => {
            let first = wrong_type_name(env, target.text.as_slice(), target.span);
            plain(Meaning::Unknown, earlier_of_two(first, g.typed.broken))
        }
        Some(t) => {
            let wanted = Wanted::OneOf(Some(t), None);
            let then = unfit(env.lines, wanted, g.place, g.typed.meaning);
            let meaning = cast_meaning(env.lines, t, g.typed.meaning);
            plain(meaning, earlier_of_two(g.typed.broken, then))
        }
    }
}
