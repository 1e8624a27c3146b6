// Whether a transition has to wait for free lines or slots.
ghost use Rattle.std.specs.Prelude.{◌≡◌};
ghost use Rattle.acts.specs.Prelude.{DoesAs, itself};
ghost use Rattle.body_meaning.specs.Prelude.{buffer_short, table_short};
ghost use Rattle.compiled_protocol.specs.Prelude.{any_short, machine_code, needed, room_lacks, sent};
ghost use Rattle.compiled_protocol.specs.Room.{one_short};

use crate::machine::CompiledMachine;
use acts::{Local, Trouble, free, slots};
use scan_steps::split;
use slicc_plan::Row;

// What may be short for a transition: free lines of tables, or slots of buffers.
#[derive(Clone, Copy)]
enum Room {
    Lines,
    Slots,
}

fn table_short<T: Local>(
    m: CompiledMachine<'_>,
    row: &Row,
    table: u16,
    local: &T,
) -> Result<bool, Trouble>
    ensures { DoesAs itself (table_short (needed (machine_code m.entry) row.now) table) result
        (T.view local.now) (T.view local.now) }
{
    let needed = m.parts.flow.needs(m.number, row.transition, table);
    if needed == 0 {
        return Ok(false);
    }
    let free = free(local, table)?;
    Ok(free < needed)
}

fn buffer_short<T: Local>(
    m: CompiledMachine<'_>,
    row: &Row,
    buffer: u16,
    local: &T,
) -> Result<bool, Trouble>
    ensures { DoesAs itself (buffer_short (sent (machine_code m.entry) row.now) buffer) result
        (T.view local.now) (T.view local.now) }
{
    let sent = m.parts.flow.sends(m.number, row.transition, buffer);
    if sent == 0 {
        return Ok(false);
    }
    match slots(local, buffer)? {
        None => Ok(false),
        Some(free) => Ok(free < sent),
    }
}

fn one_short<T: Local>(
    m: CompiledMachine<'_>,
    row: &Row,
    room: Room,
    number: u16,
    local: &T,
) -> Result<bool, Trouble>
    ensures { DoesAs itself (one_short (machine_code m.entry) row.now room number) result
        (T.view local.now) (T.view local.now) }
{
    match room {
        Room::Lines => table_short(m, row, number, local),
        Room::Slots => buffer_short(m, row, number, local),
    }
}

// Whether some of these tables or buffers is short.
fn any_short<T: Local>(
    m: CompiledMachine<'_>,
    row: &Row,
    room: Room,
    numbers: &[u16],
    local: &T,
) -> Result<bool, Trouble>
    ensures { DoesAs itself (any_short (one_short (machine_code m.entry) row.now room) numbers.now) result
        (T.view local.now) (T.view local.now) }
{
    match split(numbers) {
        None => Ok(false),
        Some(parts) => {
            let short = one_short(m, row, room, *parts.0, local)?;
            if short {
                return Ok(true);
            }
            any_short(m, row, room, parts.1, local)
        }
    }
}

// Whether some table has fewer free lines than the transition needs, or some receiver fewer slots than it sends messages there.
pub(crate) fn room_lacks<T: Local>(
    m: CompiledMachine<'_>,
    row: &Row,
    local: &T,
) -> Result<bool, Trouble>
    ensures { DoesAs itself (room_lacks (machine_code m.entry) row.now) result (T.view local.now)
        (T.view local.now) }
{
    let short = any_short(m, row, Room::Lines, &m.head.checked, local)?;
    if short {
        return Ok(true);
    }
    any_short(m, row, Room::Slots, &m.head.buffers, local)
}
