// The actions of a transition, and whether it has to wait for free lines or slots.
ghost use Rattle.std.specs.Prelude.{◌+◌, ◌<◌, length};
ghost use Rattle.acts.specs.Prelude.{DoesAs, itself};
ghost use Rattle.body_meaning.specs.Prelude.{each, reading, need, send_count, action_done, buffer_short, is_short, lacks_room, table_short};
ghost use Rattle.statement_walk.specs.Prelude.{HasFew};
ghost use Rattle.scan_walk.specs.Prelude.{one_short};

use acts::{Local, Trouble, free, slots};
use body_meaning::{About, Scope};
use scan_steps::split;
use statement_walk::{Counted, action_done, has_more, is_sent_on};
use std::alloc::Global;

// What may be short for a transition: free lines of tables, or slots of buffers.
#[derive(Clone, Copy)]
enum Room {
    Lines,
    Slots,
}

// Does actions one after another, each about what the one before has left.
pub(crate) fn actions_done<T: Local>(
    alloc: Global,
    s: Scope<'_>,
    a: About,
    actions: &[u16],
    local: &mut T,
) -> Result<About, Trouble>
    requires few { HasFew s.machine.now }
    ensures { DoesAs itself (each (action_done (reading s.entry)) a actions.now) result
        (T.view local.old) (T.view local.new) }
{
    match split(actions) {
        None => Ok(a),
        Some(parts) => {
            let left = action_done(alloc, s, a, *parts.0, local)?;
            actions_done(alloc, s, left, parts.1, local)
        }
    }
}

fn table_short<T: Local>(
    s: Scope<'_>,
    actions: &[u16],
    table: u16,
    local: &T,
) -> Result<bool, Trouble>
    ensures { DoesAs itself (table_short (need (reading s.entry) actions.now) table) result
        (T.view local.now) (T.view local.now) }
{
    if !has_more(s, actions, Counted::Lines(table), 0) {
        return Ok(false);
    }
    let free = free(local, table)?;
    Ok(has_more(s, actions, Counted::Lines(table), free))
}

// What is sent is counted only where a receiver's buffer has a size: most protocols have none.
fn buffer_short<T: Local>(
    s: Scope<'_>,
    actions: &[u16],
    buffer: u16,
    local: &T,
) -> Result<bool, Trouble>
    ensures { DoesAs itself (buffer_short (send_count (reading s.entry) actions.now) buffer) result
        (T.view local.now) (T.view local.now) }
{
    if !is_sent_on(s.machine, buffer) {
        return Ok(false);
    }
    match slots(local, buffer) {
        Ok(None) => Ok(false),
        Ok(Some(free)) => Ok(has_more(s, actions, Counted::Messages(buffer), free)),
        Err(e) => {
            if has_more(s, actions, Counted::Messages(buffer), 0) {
                Err(e)
            } else {
                Ok(false)
            }
        }
    }
}

fn one_short<T: Local>(
    s: Scope<'_>,
    actions: &[u16],
    room: Room,
    number: u16,
    local: &T,
) -> Result<bool, Trouble>
    ensures { DoesAs itself (one_short (reading s.entry) actions.now room number) result
        (T.view local.now) (T.view local.now) }
{
    match room {
        Room::Lines => table_short(s, actions, number, local),
        Room::Slots => buffer_short(s, actions, number, local),
    }
}

// Whether some of these tables or buffers is short for the actions, whose numbers are those from this one on.
fn is_short<T: Local, X>(
    s: Scope<'_>,
    actions: &[u16],
    room: Room,
    number: u16,
    items: &[X],
    local: &T,
) -> Result<bool, Trouble>
    requires { number + length items.now < 65536 }
    ensures { DoesAs itself
        (is_short (one_short (reading s.entry) actions.now room) number items.now) result
        (T.view local.now) (T.view local.now) }
{
    match split(items) {
        None => Ok(false),
        Some(parts) => {
            let short = one_short(s, actions, room, number, local)?;
            if short {
                return Ok(true);
            }
            is_short(s, actions, room, number + 1, parts.1, local)
        }
    }
}

// Whether some table has fewer free lines than the actions need, or some receiver fewer slots than they send it messages.
pub(crate) fn lacks_room<T: Local>(
    s: Scope<'_>,
    actions: &[u16],
    local: &T,
) -> Result<bool, Trouble>
    requires few { HasFew s.machine.now }
    ensures { DoesAs itself (lacks_room (reading s.entry) actions.now) result
        (T.view local.now) (T.view local.now) }
{
    let short = is_short(s, actions, Room::Lines, 0, &s.machine.tables, local)?;
    if short {
        return Ok(true);
    }
    is_short(s, actions, Room::Slots, 0, &s.machine.buffers, local)
}
