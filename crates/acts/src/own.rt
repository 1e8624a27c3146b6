// What a controller is told, its built-in map of states, and its next wake-up.
ghost use Rattle.std.specs.Prelude.{Ok};
ghost use Rattle.ctl_face.specs.declared.trouble.Trouble.{Trouble};
ghost use Rattle.acts.specs.Prelude.{Again, Me, Now, SetState, State, act, DoesAs, itself};

use crate::serving::{has_states, not_served};
use ctl_face::{Local, Trouble};

/// Does `Now`: the cycle.
pub fn now<T: Local>(local: &T) -> u64
    ensures { DoesAs itself (act Now) (Ok result) (T.view local.now) (T.view local.now) }
{
    local.now()
}

/// Does `Me`: the controller's actor number.
pub fn me<T: Local>(local: &T) -> u32
    ensures { DoesAs itself (act Me) (Ok result) (T.view local.now) (T.view local.now) }
{
    local.me()
}

/// Does `State`: the state of a line in the built-in map.
pub fn state<T: Local>(local: &T, line: u64) -> Result<u16, Trouble>
    ensures { DoesAs itself (act (State line)) result (T.view local.now) (T.view local.now) }
{
    if !has_states(local.machine(), line) {
        return Err(not_served());
    }
    Ok(local.state(line))
}

/// Does `SetState`: sets the state of a line in the built-in map.
pub fn set_state<T: Local>(local: &mut T, line: u64, state: u16) -> Result<(), Trouble>
    ensures { DoesAs itself (act (SetState line state)) result (T.view local.old) (T.view local.new) }
{
    if !has_states(local.machine(), line) {
        return Err(not_served());
    }
    local.set_state(line, state)
}

/// Does `Again`: sees to it that the controller wakes in the next cycle.
pub fn again<T: Local>(local: &mut T) -> Result<(), Trouble>
    ensures { DoesAs itself (act Again) result (T.view local.old) (T.view local.new) }
{
    local.again()
}
