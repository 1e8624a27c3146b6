//! The rules of action code, at one instruction.
ghost use Rattle.std.specs.Prelude.{◌≡◌, ◌<◌, ◌^◌, length, reverse};
ghost use Rattle.std.specs.Option.{option_copied};
ghost use Rattle.action_code.specs.Rules.{jumps_forward, rule_broken, stays_within};
ghost use Rattle.action_code.specs.Shapes.{operands_fit};
ghost use Rattle.action_code.specs.Ways.{continues, target};

use crate::instr::Instr;
use crate::operand::{Operand, accepts};
use crate::program::MachineDecl;
use crate::shape::Shape;
use crate::sign::Sign;
use ruby_value::Kind;

/// The place that an instruction jumps to, if it does.
pub fn target(i: &Instr) -> Option<u32>
    ensures { result ≡ target i.now }
{
    match i {
        Instr::Jump(to) | Instr::Unless(to) => Some(*to),
        _ => None,
    }
}

/// Whether a run may go on with the next instruction.
pub fn continues(i: &Instr) -> bool
    ensures { result ≡ continues i.now }
{
    !matches!(
        i,
        Instr::Jump(_) | Instr::Trigger(_) | Instr::Stop(_) | Instr::Ret
    )
}

// Whether a stack, from the bottom up, has these operands on top, the topmost first.
fn operands_fit(m: Option<&MachineDecl>, on: u16, takes: &[Operand], stack: &[Kind]) -> bool
    ensures { result ≡ operands_fit (option_copied m.entry) on takes.now (reverse stack.now) }
{
    let [operand, takes @ ..] = takes else {
        return true;
    };
    match stack {
        [stack @ .., top] => accepts(m, on, *operand, *top) && operands_fit(m, on, takes, stack),
        [] => false,
    }
}

fn jumps_forward(count: usize, at: usize, to: Option<u32>) -> bool
    ensures { result ≡ jumps_forward count at to }
{
    match to {
        None => true,
        Some(to) => at < to as usize && (to as usize) < count,
    }
}

fn stays_within(count: usize, at: usize, i: &Instr) -> bool
    requires { at < 2 ^ 32 }
    ensures { result ≡ stays_within count at i.now }
{
    !continues(i) || at + 1 < count
}

/// The least rule that an instruction with this sign breaks, of a body of this many instructions, where there is this shape before it and
/// the ways to it clash or don't.
pub fn rule_broken(
    m: Option<&MachineDecl>,
    count: usize,
    at: usize,
    clash: bool,
    s: &Shape,
    sg: &Sign,
    i: &Instr,
) -> Option<u8>
    requires { at < 2 ^ 32 }
    ensures { result ≡ rule_broken (option_copied m.entry) count at clash s.now sg.now i.now }
{
    if sg.takes.len() > s.stack.len() {
        Some(1)
    } else if !operands_fit(m, sg.on, sg.takes.as_slice(), s.stack.as_slice()) {
        Some(2)
    } else if !jumps_forward(count, at, target(i)) {
        Some(3)
    } else if clash {
        Some(4)
    } else if !sg.known {
        Some(5)
    } else if !stays_within(count, at, i) {
        Some(6)
    } else {
        None
    }
}
