// Whether a machine serves an act. None takes memory.
ghost use Rattle.std.specs.Prelude.{◌≡◌, ◌&&◌, is_some};
ghost use Rattle.ctl_face.specs.Prelude.{buffer_place, table_size, receives};
ghost use Rattle.acts.specs.Prelude.{Get, Send, Set, is_line, serves};

use ctl_face::{
    Fault, Fields, MachineSetup, Ref, Trouble, Value, has_field, sends, takes_field, takes_message,
};

// The fault of an act that isn't served.
pub(crate) fn not_served() -> Trouble
    ensures { result ≡ Trouble.Fault Fault.Reference }
{
    Trouble::Fault(Fault::Reference)
}

pub(crate) fn is_line(line: u64) -> bool
    ensures { result ≡ is_line line }
{
    line < 1 << 58
}

pub(crate) fn serves_get(machine: &MachineSetup, r: &Ref, field: u16) -> bool
    ensures { result ≡ serves machine.now (Get r.now field) }
{
    is_line(r.line) && has_field(machine, r.table, field)
}

pub(crate) fn serves_set(machine: &MachineSetup, r: &Ref, field: u16, value: &Value) -> bool
    ensures { result ≡ serves machine.now (Set r.now field value.now) }
{
    is_line(r.line) && takes_field(machine, r.table, field, value)
}

pub(crate) fn serves_send(
    machine: &MachineSetup,
    buffer: u16,
    latency: i64,
    fields: &Fields,
) -> bool
    ensures { result ≡ serves machine.now (Send buffer latency fields.now) }
{
    sends(machine, buffer) && takes_message(machine, buffer, fields)
}

pub(crate) fn has_states(machine: &MachineSetup, line: u64) -> bool
    ensures { result ≡ (is_line line && is_some machine.now.default_state) }
{
    is_line(line) && machine.default_state.is_some()
}
