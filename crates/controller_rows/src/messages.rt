//! Fields of one value, and messages.
ghost use Rattle.std.specs.Prelude.{◌≡◌, [], ◌∷◌, false, IfOk};
ghost use Rattle.controller_rows.specs.Prelude.{number_in};

use ctl_face::{Fields, Message, NoMemory, Value};
use ruby_value::MsgNo;
use std::alloc::Global;

/// The fields that have this value alone.
pub fn one_field(alloc: Global, value: Value) -> Result<Fields, NoMemory>
    ensures { IfOk result (λ fields. fields ≡ value ∷ []) }
{
    let mut values = Vec::new(alloc);
    values.push(value)?;
    Ok(Fields::of(values))
}

/// The number that is the only field, if one is.
pub fn number_of(fields: &Fields) -> Option<i64>
    ensures { result ≡ number_in fields.now }
{
    match fields.as_slice() {
        [Value::Int(n)] => Some(*n),
        _ => None,
    }
}

/// A message that was never recycled.
pub fn message(number: MsgNo, buffer: u16, arrival: u64, fields: Fields) -> Message
    ensures number { result.number ≡ number }
    ensures buffer { result.buffer ≡ buffer }
    ensures arrival { result.arrival ≡ arrival }
    ensures recycled { result.recycled ≡ false }
    ensures fields { result.fields ≡ fields }
{
    Message {
        number,
        buffer,
        arrival,
        recycled: false,
        fields,
    }
}
