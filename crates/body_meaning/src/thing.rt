// What is met in bodies, with fields of messages and the operators between two operands.
ghost use Rattle.std.specs.Prelude.{◌≡◌, IfOk};
ghost use Rattle.body_meaning.specs.Names.{message_field};
ghost use Rattle.body_meaning.specs.Reading.{reading};
ghost use Rattle.body_meaning.specs.Operators.{joined, negated, settled};

use crate::{Scope, structure_field};
use acts::{BodyFault, Fields, NoMemory, Ref, Value};
use built_in_acts::{are_equal, difference, is_at_most, is_less, negation, product, sum, truth};
use slicc_ast::tree::Operator;
use std::alloc::AllocError;

/// A built-in call, and what it is called on.
#[derive(Clone, Copy)]
pub struct Numbered {
    /// The number of the call, in action code's numbering.
    pub number: u16,
    /// The number of the table or buffer, and 0 where it is on neither.
    pub on: u16,
}

/// What a `trigger` asks for.
#[derive(Clone, Copy)]
pub struct Trigger {
    /// The number of the event among those of the machine.
    pub event: u16,
    /// The byte address of the line.
    pub address: u64,
    /// The line's entry and its TBE, each where the machine has such lines.
    pub entry: Option<Ref>,
    pub tbe: Option<Ref>,
}

/// What an expression gives.
#[derive(Drop)]
pub enum Thing {
    Value(Value),
    /// The machine's table of lines of this number.
    Table(u16),
    /// A port, by the number of the buffer that it is on.
    Port(u16),
    Sequencer,
    /// A message that is looked at or being made: the number of its structure, and its fields.
    Message(u16, Fields),
    Trigger(Trigger),
    /// What a call gives that answers nothing.
    Nothing,
}

impl Clone for Thing {
    ghost is_clone = { λ old new. new ≡ old };

    ghost use Rattle.std.specs.Prelude.{◌≡◌};

    fn clone(&self) -> Result<Thing, AllocError> {
        Ok(match self {
            Thing::Value(v) => Thing::Value(v.clone()?),
            Thing::Table(table) => Thing::Table(*table),
            Thing::Port(buffer) => Thing::Port(*buffer),
            Thing::Sequencer => Thing::Sequencer,
            Thing::Message(structure, fields) => Thing::Message(*structure, fields.clone()?),
            Thing::Trigger(t) => Thing::Trigger(*t),
            Thing::Nothing => Thing::Nothing,
        })
    }
}

/// The field of this name of a message with this structure.
pub fn message_field(
    s: Scope<'_>,
    structure: u16,
    fields: &Fields,
    name: &[u8],
) -> Result<Option<Value>, NoMemory>
    ensures { IfOk result (λ v. v ≡ message_field (reading s.entry) structure fields.now name.now) }
{
    let Some(number) = structure_field(s.symbols, structure, name) else {
        return Ok(None);
    };
    match fields.get(number) {
        Some(v) => Ok(Some(v.clone()?)),
        None => Ok(None),
    }
}

/// What the left side of an operator decides alone, so that the right one isn't evaluated.
pub fn settled(operator: Operator, left: &Value) -> Option<Value>
    ensures { result ≡ settled operator left.now }
{
    match (operator, truth(left)) {
        (Operator::Or, true) => Some(Value::Bool(true)),
        (Operator::And, false) => Some(Value::Bool(false)),
        _ => None,
    }
}

/// What an operator makes of its two sides, where the left one doesn't decide, or the fault.
pub fn joined(operator: Operator, a: &Value, b: &Value) -> Result<Value, BodyFault>
    ensures { result ≡ joined operator a.now b.now }
{
    Ok(match operator {
        Operator::Or | Operator::And => Value::Bool(truth(b)),
        Operator::Equal => Value::Bool(are_equal(a, b)),
        Operator::Unequal => Value::Bool(!are_equal(a, b)),
        Operator::Less => Value::Bool(is_less(a, b)),
        Operator::Greater => Value::Bool(is_less(b, a)),
        Operator::LessOrEqual => Value::Bool(is_at_most(a, b)),
        Operator::GreaterOrEqual => Value::Bool(is_at_most(b, a)),
        Operator::Plus => Value::Int(sum(a, b)?),
        Operator::Minus => Value::Int(difference(a, b)?),
        Operator::Times => Value::Int(product(a, b)?),
    })
}

/// The negation of a number, or the fault.
pub fn negated(a: &Value) -> Result<Value, BodyFault>
    ensures { result ≡ negated a.now }
{
    Ok(Value::Int(negation(a)?))
}
