// What a `trigger` does.
ghost use Rattle.std.specs.Prelude.{◌≡◌, None, find};
ghost use Rattle.std.specs.Option.{option_copied};
ghost use Rattle.acts.specs.Prelude.{DoesAs, itself};
ghost use Rattle.body_meaning.specs.Prelude.{reading, fired, is_for, row_tried, try};
ghost use Rattle.statement_walk.specs.Prelude.{HasFew};
ghost use Rattle.scan_steps.specs.Prelude.{TriesAs};

use crate::actions::{actions_done, lacks_room};
use acts::{Fault, Local, Trouble};
use body_meaning::{Scope, Tried, Trigger};
use ruby_symbols::{MachineSymbols, TransitionSymbol};
use run_journal::{FireNote, StopAt};
use scan_steps::{Halt, about, is_among, is_stall_among, known, told, waiting};
use statement_walk::{next_state, permission_set, state_by, state_set};
use std::alloc::Global;

fn is_for(state: u16, event: u16, t: &TransitionSymbol) -> bool
    ensures { result ≡ is_for state event t.now }
{
    is_among(state, &t.states) && is_among(event, &t.events)
}

// The first written transition for a state and an event.
fn row_for(m: &MachineSymbols, state: u16, event: u16) -> Option<&TransitionSymbol>
    ensures { option_copied result ≡ find (is_for state event) m.now.transitions }
{
    m.transitions.iter().find(|t| is_for(state, event, t))
}

fn fired<T: Local>(
    alloc: Global,
    s: Scope<'_>,
    t: Trigger,
    state: u16,
    next: u16,
    row: &TransitionSymbol,
    local: &mut T,
) -> Result<Tried, Trouble>
    requires few { HasFew s.machine.now }
    ensures { DoesAs itself (fired (reading s.entry) t state next row.now) result (T.view local.old)
        (T.view local.new) }
{
    let a = actions_done(alloc, s, about(t), &row.actions, local)?;
    state_set(alloc, s, a, next, s.machine.set_state, local)?;
    permission_set(alloc, s, a, next, s.machine.set_permission, local)?;
    Ok(Tried::Fires(FireNote {
        address: t.address,
        state,
        event: t.event,
        next,
    }))
}

fn row_tried<T: Local>(
    alloc: Global,
    s: Scope<'_>,
    t: Trigger,
    state: u16,
    row: &TransitionSymbol,
    local: &mut T,
) -> Result<Tried, Trouble>
    requires few { HasFew s.machine.now }
    ensures { DoesAs itself (row_tried (reading s.entry) t state row.now) result (T.view local.old)
        (T.view local.new) }
{
    let short = lacks_room(s, &row.actions, local)?;
    if short {
        return waiting(local);
    }
    let stalls = is_stall_among(&row.actions, s.machine.stall);
    if stalls {
        return waiting(local);
    }
    let next = next_state(alloc, s, t.address, state, row.next, local)?;
    fired(alloc, s, t, state, next, row, local)
}

// Does what a `trigger` asks for.
pub(crate) fn tried<T: Local>(
    alloc: Global,
    s: Scope<'_>,
    t: Trigger,
    local: &mut T,
) -> Result<Tried, Halt>
    requires few { HasFew s.machine.now }
    ensures { TriesAs itself (try (reading s.entry) t) result (T.view local.old) (T.view local.new) }
{
    let state = told(
        known(t, None),
        state_by(alloc, s, about(t), s.machine.get_state, local),
    )?;
    match row_for(s.machine, state, t.event) {
        None => Err(Halt::Stop(StopAt {
            address: Some(t.address),
            state: Some(state),
            event: Some(t.event),
            fault: Fault::Invalid,
        })),
        Some(row) => told(
            known(t, Some(state)),
            row_tried(alloc, s, t, state, row, local),
        ),
    }
}
