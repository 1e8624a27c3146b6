// The arms of an `if`, whose jumps are left open until what follows is written.
ghost use Rattle.std.specs.Prelude.{◌≡◌, Some, None, IfOk, OnOk, if◌then◌else◌, length};
ghost use Rattle.emit_statements.specs.Prelude.{arm_closed, filled, filled_all, goes_on_after, with_jump};

use action_code::Instr;
use emit_expressions::{hole, set_jump, set_unless};
use ruby_base::{NoMemory, Seq};

/// Closes an arm whose test has this place, and leaves a jump open where a run is to pass what follows.
pub(crate) fn close_arm(
    code: &mut Seq<Instr>,
    test: usize,
    has_jump: bool,
) -> Result<Option<usize>, NoMemory>
    ensures jump { IfOk result
        (λ jump. jump ≡ (if has_jump then Some (length code.old) else None)) }
    ensures closed { OnOk result (code.new ≡ arm_closed test has_jump code.old) }
{
    if has_jump {
        let jump = hole(code)?;
        set_unless(code, test)?;
        return Ok(Some(jump));
    }
    set_unless(code, test)?;
    Ok(None)
}

/// Sets the jump that an arm has left open, if it has.
pub(crate) fn fill(code: &mut Seq<Instr>, jump: Option<usize>) -> Result<(), NoMemory>
    ensures { OnOk result (code.new ≡ filled jump code.old) }
{
    match jump {
        Some(at) => set_jump(code, at),
        None => Ok(()),
    }
}

/// Sets all that are open.
pub(crate) fn fill_all(code: &mut Seq<Instr>, jumps: &[usize]) -> Result<(), NoMemory>
    ensures { OnOk result (code.new ≡ filled_all jumps.now code.old) }
{
    for at in jumps {
        set_jump(code, *at)?;
    }
    Ok(())
}

/// With the jump that one more arm has left open, if it has.
pub(crate) fn with_jump(jumps: &mut Seq<usize>, jump: Option<usize>) -> Result<(), NoMemory>
    ensures { OnOk result (jumps.new ≡ with_jump jumps.old jump) }
{
    match jump {
        Some(at) => jumps.push(at),
        None => Ok(()),
    }
}

/// Whether a run goes on after arms that have left these open, or after what follows.
pub(crate) fn goes_on_after(jumps: &[usize], other: bool) -> bool
    ensures { result ≡ goes_on_after jumps.now other }
{
    match jumps {
        [] => other,
        _ => true,
    }
}
