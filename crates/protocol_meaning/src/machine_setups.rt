//! What all machines of a protocol are to their controllers.
ghost use Rattle.std.specs.Prelude.{◌≡◌, ◌≤◌, IfOk, length};
ghost use Rattle.protocol_meaning.specs.Prelude.{setups_of};

use machine_setup::setup;
use ruby_base::{NoMemory, Seq};
use ruby_value::{MachineSetup, Sizes};
use slicc_plan::Plan;
use std::alloc::Global;

/// What the machines of a protocol are to their controllers, with these sizes, in the order of the protocol's text.
pub fn setups(alloc: Global, plan: &Plan, sizes: &[Sizes]) -> Result<Seq<MachineSetup>, NoMemory>
    requires { length sizes.now ≤ 64 }
    ensures { IfOk result (λ setups. setups ≡ setups_of plan.now sizes.now) }
{
    let mut setups = Seq::new(alloc);
    for (number, of_machine) in sizes.iter().enumerate() {
        match setup(alloc, plan, number as u16, of_machine)? {
            None => {}
            Some(machine) => setups.push(machine)?,
        }
    }
    Ok(setups)
}
