// What things are at the ends of statements.
ghost use Rattle.std.specs.Prelude.{◌≡◌, ◌∷◌, IfOk};
ghost use Rattle.body_meaning.specs.Prelude.{flow_of, value_in};
ghost use Rattle.built_in_acts.specs.Prelude.{truth};

use acts::{NoMemory, Value};
use body_meaning::{Flow, Thing, value_in};
use built_in_acts::truth;
use ruby_base::Seq;

// How a statement ends that is an expression, by what that gives.
pub(crate) fn flow_of(t: Thing) -> Flow
    ensures { result ≡ flow_of t }
{
    match t {
        Thing::Trigger(t) => Flow::Triggered(t),
        _ => Flow::WentOn,
    }
}

/// Whether what a condition gives is true.
pub fn is_true(t: Thing) -> bool
    ensures { result ≡ truth (value_in t) }
{
    truth(&value_in(t))
}

// A value before others.
pub(crate) fn with_first(v: Value, mut values: Seq<Value>) -> Result<Seq<Value>, NoMemory>
    ensures { IfOk result (λ all. all ≡ v ∷ values) }
{
    values.insert(0, v)?;
    Ok(values)
}

// The value of a thing and another one before others.
pub(crate) fn with_two(
    first: Thing,
    second: Value,
    mut values: Seq<Value>,
) -> Result<Seq<Value>, NoMemory>
    ensures { IfOk result (λ all. all ≡ value_in first ∷ second ∷ values) }
{
    values.insert(0, second)?;
    with_first(value_in(first), values)
}
