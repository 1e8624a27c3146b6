// What is made of operands, once they are in code.
#![tactic(auto, using(crate::proofs::Adding::adds_two), unfolding(crate::specs::Writes::Writes))]

ghost use Rattle.std.specs.Prelude.{◌≡◌, ◌++◌, ◌∷◌, ◌+◌, [], length, slice_set, true, false, IfOk, OnOk};
ghost use Rattle.std.specs.Option.{option_map};
ghost use Rattle.ruby_value.specs.declared.value.Value.TheVariants as value;
ghost use Rattle.body_meaning.specs.Prelude.{reading};
ghost use Rattle.body_code.specs.Prelude.{kind_joined, kind_left, kind_written, null};
ghost use Rattle.emit_expressions.specs.Prelude.{Writes};
ghost use Rattle.emit_expressions.specs.Parts.{leaf, strict, unary_made, unary_of};

use crate::code::{hole, place_after, put};
use crate::kinds::{kind_in, null, null_kind};
use crate::names::{member_pushed, name_read};
use action_code::Instr;
use body_code::{Left, NameAt};
use body_meaning::Scope;
use ruby_base::{NoMemory, Seq};
use ruby_symbols::kind_named;
use ruby_value::{Kind, Value};
use slicc_ast::tree::{Expr, Operator};

/// What an expression makes of one operand.
#[derive(Clone, Copy)]
pub(crate) enum Unary {
    /// The negation of a truth value.
    Not,
    /// The negation of a number.
    Negate,
    /// Whether it is a reference to a line.
    IsValid,
    /// Whether it is a reference to nothing.
    IsInvalid,
}

/// What an expression makes of its operand, where it has one.
pub(crate) fn unary_of(e: &Expr) -> Unary
    ensures { result ≡ unary_of e.now }
{
    match e {
        Expr::Not(..) => Unary::Not,
        Expr::Negate(..) => Unary::Negate,
        Expr::IsValid(..) => Unary::IsValid,
        _ => Unary::IsInvalid,
    }
}

fn kind_left(left: Left) -> Kind
    ensures { result ≡ kind_left left }
{
    match left {
        Left::Value(k) => k,
        _ => Kind::Entry(65535),
    }
}

// Whether the reference that was left is to nothing.
fn compared(code: &mut Seq<Instr>, left: Left) -> Result<(), NoMemory>
    ensures { OnOk result (code.new ≡ code.old ++ null (kind_left left) ∷ Instr.Eq ∷ []) }
{
    code.push(null(kind_left(left)))?;
    code.push(Instr::Eq)
}

/// What is made of the operand that was left.
pub(crate) fn unary_made(code: &mut Seq<Instr>, unary: Unary, left: Left) -> Result<Left, NoMemory>
    ensures { Writes (unary_made unary left) result code.old code.new }
{
    match unary {
        Unary::Not => {
            code.push(Instr::Not)?;
            Ok(Left::Value(Kind::Bool))
        }
        Unary::Negate => {
            code.push(Instr::Neg)?;
            Ok(Left::Value(Kind::Int))
        }
        Unary::IsValid => {
            compared(code, left)?;
            code.push(Instr::Not)?;
            Ok(Left::Value(Kind::Bool))
        }
        Unary::IsInvalid => {
            compared(code, left)?;
            Ok(Left::Value(Kind::Bool))
        }
    }
}

/// The kind of the type of this name.
pub fn kind_written(s: Scope<'_>, name: &[u8]) -> Option<Kind>
    ensures { result ≡ kind_written (reading s.entry) name.now }
{
    match kind_named(s.symbols, s.number, s.machine, name) {
        Some(k) => Some(kind_in(s, k)),
        None => None,
    }
}

fn kind_joined(operator: Operator) -> Kind
    ensures { result ≡ kind_joined operator }
{
    match operator {
        Operator::Plus | Operator::Minus | Operator::Times => Kind::Int,
        _ => Kind::Bool,
    }
}

/// What an operator does after both sides, where it isn't lazy.
pub(crate) fn strict(code: &mut Seq<Instr>, operator: Operator) -> Result<Left, NoMemory>
    ensures { Writes (strict operator) result code.old code.new }
{
    match operator {
        Operator::Or | Operator::And => {}
        Operator::Equal => code.push(Instr::Eq)?,
        Operator::Unequal => {
            code.push(Instr::Eq)?;
            code.push(Instr::Not)?;
        }
        Operator::Less => code.push(Instr::Lt)?,
        Operator::Greater => {
            code.push(Instr::Le)?;
            code.push(Instr::Not)?;
        }
        Operator::LessOrEqual => code.push(Instr::Le)?,
        Operator::GreaterOrEqual => {
            code.push(Instr::Lt)?;
            code.push(Instr::Not)?;
        }
        Operator::Plus => code.push(Instr::Add)?,
        Operator::Minus => code.push(Instr::Sub)?,
        Operator::Times => code.push(Instr::Mul)?,
    }
    Ok(Left::Value(kind_joined(operator)))
}

fn truth(b: bool) -> Instr
    ensures { result ≡ Instr.Push (value.Bool b) 0 }
{
    Instr::Push(Value::Bool(b), 0)
}

/// Between the sides of `||`: where the left one is true, its value again and a jump that passes the right one, whose place is given.
pub(crate) fn or_between(code: &mut Seq<Instr>) -> Result<usize, NoMemory>
    ensures at { IfOk result (λ at. at ≡ length code.old + 2) }
    ensures added { OnOk result (code.new
        ≡ code.old ++ Instr.Unless (length code.old + 3) ∷ Instr.Push (value.Bool true) 0 ∷ Instr.Ret ∷ []) }
{
    let Some(second) = place_after(code)?.checked_add(2) else {
        return Err(NoMemory);
    };
    code.push(Instr::Unless(second))?;
    code.push(truth(true))?;
    hole(code)
}

/// After the right side of `&&`: where the left one is false, its value again. The jump by which the left one is tested has this place.
pub(crate) fn and_after(code: &mut Seq<Instr>, at: usize) -> Result<(), NoMemory>
    ensures { OnOk result (code.new
        ≡ slice_set code.old at (Instr.Unless (length code.old + 1))
        ++ Instr.Jump (length code.old + 2) ∷ Instr.Push (value.Bool false) 0 ∷ []) }
{
    let second = place_after(code)?;
    let Some(end) = second.checked_add(1) else {
        return Err(NoMemory);
    };
    put(code, at, Instr::Unless(second));
    code.push(Instr::Jump(end))?;
    code.push(truth(false))
}

/// An expression that has no other one in it.
pub(crate) fn leaf(
    code: &mut Seq<Instr>,
    s: Scope<'_>,
    names: &[NameAt],
    expected: Option<Kind>,
    e: &Expr,
) -> Result<Left, NoMemory>
    ensures { Writes (leaf (reading s.entry) names.now expected e.now) result code.old code.new }
{
    match e {
        Expr::Number(k, _) => {
            code.push(Instr::Push(Value::Int(*k), 0))?;
            Ok(Left::Value(Kind::Int))
        }
        Expr::True(_) => {
            code.push(truth(true))?;
            Ok(Left::Value(Kind::Bool))
        }
        Expr::False(_) => {
            code.push(truth(false))?;
            Ok(Left::Value(Kind::Bool))
        }
        Expr::Nothing(_) => {
            let k = null_kind(expected);
            code.push(null(k))?;
            Ok(Left::Value(k))
        }
        Expr::Variable(name) => name_read(code, s, names, &name.text),
        Expr::Member { owner, member, .. } => member_pushed(code, s, &owner.text, &member.text),
        _ => Ok(Left::Nothing),
    }
}
