// What a `trigger` does.
ghost use Rattle.std.specs.Prelude.{◌≡◌};
ghost use Rattle.acts.specs.Prelude.{itself};
ghost use Rattle.scan_steps.specs.Prelude.{TriesAs};
ghost use Rattle.compiled_protocol.specs.Prelude.{MayTry, machine_code, state_read, trigger_tried};

use crate::bodies::{about_values, state_answered};
use crate::machine::CompiledMachine;
use crate::row::row_tried;
use acts::{Fault, Local, state};
use body_meaning::{Tried, Trigger};
use run_journal::StopAt;
use scan_steps::{Halt, known, told};
use std::alloc::Global;

// The state of the line that was triggered for.
fn state_read<T: Local>(
    alloc: Global,
    m: CompiledMachine<'_>,
    t: Trigger,
    local: &mut T,
) -> Result<u16, Halt>
    requires may { MayTry (machine_code m) (T.view local.old).machine t }
    ensures { TriesAs itself (state_read (machine_code m.entry) t (machine_code m.entry).head.reads) result
        (T.view local.old) (T.view local.new) }
{
    match m.head.reads {
        None => told(known(t, None), state(local, t.address / 64)),
        Some(body) => {
            let arguments = about_values(alloc, t)?;
            state_answered(alloc, m, known(t, None), body, arguments, local)
        }
    }
}

// Does what a `trigger` asks for.
pub(crate) fn trigger_tried<T: Local>(
    alloc: Global,
    m: CompiledMachine<'_>,
    t: Trigger,
    local: &mut T,
) -> Result<Tried, Halt>
    requires may { MayTry (machine_code m) (T.view local.old).machine t }
    ensures { TriesAs itself (trigger_tried (machine_code m.entry) t) result (T.view local.old)
        (T.view local.new) }
{
    let state = state_read(alloc, m, t, local)?;
    match m.parts.tables.row(m.number, state, t.event) {
        None => Err(Halt::Stop(StopAt {
            address: Some(t.address),
            state: Some(state),
            event: Some(t.event),
            fault: Fault::Invalid,
        })),
        Some(row) => row_tried(alloc, m, t, state, row, local),
    }
}
