// Sums with their fault, comparisons, and fields through references.
ghost use Rattle.std.specs.Prelude.{◌≡◌};
ghost use Rattle.acts.specs.Prelude.{DoesAs, itself};
ghost use Rattle.built_in_acts.specs.Prelude.{are_equal, difference, field_of, is_at_most, is_less, is_no_line, negation, product, sum, with_field};

use crate::values::{number, reference};
use acts::{BodyFault, Local, Trouble, Value, get, set};

/// The sum, or the fault where it is outside signed 64 bits.
pub fn sum(a: &Value, b: &Value) -> Result<i64, BodyFault>
    ensures { result ≡ sum a.now b.now }
{
    match ruby_value::add(number(a), number(b)) {
        Some(n) => Ok(n),
        None => Err(BodyFault::Overflow),
    }
}

/// The difference, or the fault where it is outside signed 64 bits.
pub fn difference(a: &Value, b: &Value) -> Result<i64, BodyFault>
    ensures { result ≡ difference a.now b.now }
{
    match ruby_value::sub(number(a), number(b)) {
        Some(n) => Ok(n),
        None => Err(BodyFault::Overflow),
    }
}

/// The product, or the fault where it is outside signed 64 bits.
pub fn product(a: &Value, b: &Value) -> Result<i64, BodyFault>
    ensures { result ≡ product a.now b.now }
{
    match ruby_value::mul(number(a), number(b)) {
        Some(n) => Ok(n),
        None => Err(BodyFault::Overflow),
    }
}

/// The negation, or the fault where it is outside signed 64 bits.
pub fn negation(a: &Value) -> Result<i64, BodyFault>
    ensures { result ≡ negation a.now }
{
    match ruby_value::sub(0, number(a)) {
        Some(n) => Ok(n),
        None => Err(BodyFault::Overflow),
    }
}

/// Whether the first number is less than the second.
pub fn is_less(a: &Value, b: &Value) -> bool
    ensures { result ≡ is_less a.now b.now }
{
    number(a) < number(b)
}

/// Whether the first number is at most the second.
pub fn is_at_most(a: &Value, b: &Value) -> bool
    ensures { result ≡ is_at_most a.now b.now }
{
    number(a) <= number(b)
}

fn is_no_line(v: &Value) -> bool
    ensures { result ≡ is_no_line v.now }
{
    match v {
        Value::Entry(r) | Value::Tbe(r) => r.is_none(),
        _ => false,
    }
}

/// Whether two values are equal, of those sorts that are compared. References are where both are to nothing.
pub fn are_equal(a: &Value, b: &Value) -> bool
    ensures { result ≡ are_equal a.now b.now }
{
    match (a, b) {
        (Value::Bool(a), Value::Bool(b)) => *a == *b,
        (Value::Int(a), Value::Int(b)) => *a == *b,
        (Value::Enum(a, m), Value::Enum(b, n)) => *a == *b && *m == *n,
        (Value::Addr(a), Value::Addr(b)) => *a == *b,
        (Value::Machine(a), Value::Machine(b)) => *a == *b,
        (Value::Block(a), Value::Block(b)) => a.bytes == b.bytes,
        (Value::Entry(_) | Value::Tbe(_), _) => is_no_line(a) && is_no_line(b),
        _ => false,
    }
}

/// A field of the line that a reference names.
#[tactic(auto, using(acts::proofs::Walk::walk_steps), unfolding(crate::specs::Operators::field_of))]
pub fn field_of<T: Local>(local: &T, v: &Value, field: u16) -> Result<Value, Trouble>
    ensures { DoesAs itself (field_of v.now field) result (T.view local.now) (T.view local.now) }
{
    let Some(r) = reference(v) else {
        return Err(Trouble::from(BodyFault::Reference));
    };
    get(local, &r, field)
}

/// Writes a field of the line that a reference names.
#[tactic(auto, using(acts::proofs::Walk::walk_steps), unfolding(crate::specs::Operators::with_field))]
pub fn with_field<T: Local>(local: &mut T, v: &Value, field: u16, new: Value) -> Result<(), Trouble>
    ensures { DoesAs itself (with_field v.now field new) result (T.view local.old)
        (T.view local.new) }
{
    let Some(r) = reference(v) else {
        return Err(Trouble::from(BodyFault::Reference));
    };
    set(local, &r, field, new)
}
