// What a machine's tables and buffers serve: tests of what the calls of a local require. None takes memory.
ghost use Rattle.std.specs.Prelude.{◌≡◌, ◌↔◌, IsTrue, IsSome, IsSomeAnd, slice_get};
ghost use Rattle.ruby_value.specs.Prelude.{has_kind, has_kinds};
ghost use Rattle.ctl_face.specs.Prelude.{buffer_place, field_kinds, message_kinds, table_size, is_cache, is_tbe_table, looks_up, deallocates, receives, sends};

use ruby_value::{BufferPlace, Fields, MachineSetup, TableSize, Value, have_kinds};

// What the table of this number is, if the machine has it.
fn size_of(machine: &MachineSetup, table: u16) -> Option<TableSize>
    ensures { result ≡ table_size machine.now table }
{
    match machine.tables.get(usize::from(table)) {
        Some(s) => Some(s.size),
        None => None,
    }
}

// Where the messages of the buffer of this number come from or go to, if the machine has it.
pub(crate) fn place_of(machine: &MachineSetup, buffer: u16) -> Option<BufferPlace>
    ensures { result ≡ buffer_place machine.now buffer }
{
    match machine.buffers.get(usize::from(buffer)) {
        Some(s) => Some(s.place),
        None => None,
    }
}

/// Whether the table is a cache.
pub fn is_cache(machine: &MachineSetup, table: u16) -> bool
    ensures { result ≡ is_cache (table_size machine.now table) }
{
    matches!(size_of(machine, table), Some(TableSize::Cache { .. }))
}

/// Whether the table is a TBE table.
pub fn is_tbe_table(machine: &MachineSetup, table: u16) -> bool
    ensures { result ≡ is_tbe_table (table_size machine.now table) }
{
    matches!(size_of(machine, table), Some(TableSize::Tbe { .. }))
}

/// Whether lines of the table can be looked up and allocated: those of a cache, a directory or a TBE table.
pub fn looks_up(machine: &MachineSetup, table: u16) -> bool
    ensures { result ≡ looks_up (table_size machine.now table) }
{
    match size_of(machine, table) {
        Some(TableSize::Cache { .. } | TableSize::Directory | TableSize::Tbe { .. }) => true,
        Some(TableSize::Parameters) | None => false,
    }
}

/// Whether lines of the table can be deallocated: those of a cache or a TBE table.
pub fn deallocates(machine: &MachineSetup, table: u16) -> bool
    ensures { result ≡ deallocates (table_size machine.now table) }
{
    is_cache(machine, table) || is_tbe_table(machine, table)
}

/// Whether the lines of the table have the field.
pub fn has_field(machine: &MachineSetup, table: u16, field: u16) -> bool
    ensures { IsTrue result ↔ IsSome (slice_get (field_kinds machine.now table) field) }
{
    match machine.tables.get(usize::from(table)) {
        Some(s) => s.kinds.get(usize::from(field)).is_some(),
        None => false,
    }
}

/// Whether the lines of the table have the field, and it may hold the value.
pub fn takes_field(machine: &MachineSetup, table: u16, field: u16, value: &Value) -> bool
    ensures { IsTrue result
        ↔ IsSomeAnd (slice_get (field_kinds machine.now table) field)
        (λ kind. IsTrue (has_kind kind value.now)) }
{
    let Some(s) = machine.tables.get(usize::from(table)) else {
        return false;
    };
    match s.kinds.get(usize::from(field)) {
        Some(kind) => value.has_kind(kind),
        None => false,
    }
}

/// Whether messages are taken from the buffer.
pub fn receives(machine: &MachineSetup, buffer: u16) -> bool
    ensures { result ≡ receives (buffer_place machine.now buffer) }
{
    match place_of(machine, buffer) {
        Some(BufferPlace::Local | BufferPlace::From { .. }) => true,
        Some(BufferPlace::To { .. }) | None => false,
    }
}

/// Whether messages are sent on the buffer.
pub fn sends(machine: &MachineSetup, buffer: u16) -> bool
    ensures { result ≡ sends (buffer_place machine.now buffer) }
{
    match place_of(machine, buffer) {
        Some(BufferPlace::Local | BufferPlace::To { .. }) => true,
        Some(BufferPlace::From { .. }) | None => false,
    }
}

/// Whether these are the fields of a message of the buffer. A buffer that isn't there has messages without fields.
pub fn takes_message(machine: &MachineSetup, buffer: u16, fields: &Fields) -> bool
    ensures { result ≡ has_kinds (message_kinds machine.now buffer) fields.now }
{
    match machine.buffers.get(usize::from(buffer)) {
        Some(s) => have_kinds(&s.kinds, fields.as_slice()),
        None => fields.is_empty(),
    }
}
