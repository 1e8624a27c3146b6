// Jumps in code, which are set once what they pass is written.
ghost use Rattle.std.specs.Prelude.{◌≡◌, ◌+◌, ◌++◌, ◌∷◌, [], length, slice_set, IfOk, OnOk};

use action_code::Instr;
use ruby_base::{NoMemory, Seq};

// The place after what is written. It has 32 bits, and what would be beyond counts as too much for the memory.
fn place(code: &Seq<Instr>) -> Result<u32, NoMemory>
    ensures { IfOk result (λ at. at ≡ length code.now) }
{
    match u32::try_from(code.len()) {
        Ok(at) => Ok(at),
        Err(_) => Err(NoMemory),
    }
}

/// The place after this one.
pub(crate) fn place_after(code: &Seq<Instr>) -> Result<u32, NoMemory>
    ensures { IfOk result (λ at. at ≡ length code.now + 1) }
{
    match place(code)?.checked_add(1) {
        Some(at) => Ok(at),
        None => Err(NoMemory),
    }
}

/// Adds an instruction in whose place a jump is set later, and gives that place.
pub fn hole(code: &mut Seq<Instr>) -> Result<usize, NoMemory>
    ensures at { IfOk result (λ at. at ≡ length code.old) }
    ensures added { OnOk result (code.new ≡ code.old ++ Instr.Ret ∷ []) }
{
    let at = code.len();
    code.push(Instr::Ret)?;
    Ok(at)
}

/// Puts an instruction in the place of another one.
pub(crate) fn put(code: &mut Seq<Instr>, at: usize, i: Instr)
    ensures { code.new ≡ slice_set code.old at i }
{
    if at < code.len() {
        code.replace(at, i);
    }
}

/// Puts a jump to the end of the code at this place.
pub fn set_jump(code: &mut Seq<Instr>, at: usize) -> Result<(), NoMemory>
    ensures { OnOk result (code.new ≡ slice_set code.old at (Instr.Jump (length code.old))) }
{
    let to = place(code)?;
    put(code, at, Instr::Jump(to));
    Ok(())
}

/// The same for a jump that is taken where the value on the stack is false.
pub fn set_unless(code: &mut Seq<Instr>, at: usize) -> Result<(), NoMemory>
    ensures { OnOk result (code.new ≡ slice_set code.old at (Instr.Unless (length code.old))) }
{
    let to = place(code)?;
    put(code, at, Instr::Unless(to));
    Ok(())
}
