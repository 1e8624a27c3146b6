// A machine of compiled parts.
ghost use Rattle.std.specs.Prelude.{◌≡◌};
ghost use Rattle.std.specs.Option.{option_map};
ghost use Rattle.compiled_protocol.specs.Machine.{machine_at, machine_code};

use action_gen::{Head, Parts};

// A machine of compiled parts, by its number.
#[derive(Clone, Copy)]
pub(crate) struct CompiledMachine<'a> {
    pub(crate) parts: &'a Parts,
    pub(crate) number: u16,
    // The enumeration of its states.
    pub(crate) states: u16,
    pub(crate) head: &'a Head,
}

pub(crate) fn machine_at(parts: &Parts, number: u16) -> Option<CompiledMachine<'_>>
    ensures { option_map machine_code result ≡ machine_at parts.now number }
{
    let program = parts.program.program();
    match program.machines.get(usize::from(number)) {
        None => None,
        Some(m) => match parts.heads.get(usize::from(number)) {
            None => None,
            Some(head) => Some(CompiledMachine {
                parts,
                number,
                states: m.states,
                head,
            }),
        },
    }
}
