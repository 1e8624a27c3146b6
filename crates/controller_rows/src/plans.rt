// The plans of protocols.
use ruby_base::{NoMemory, Text};
use ruby_outside::Library;
use slicc_front::{Front, front};
use slicc_plan::Plan;
use std::alloc::Global;

/// The plan of the protocol in the file of this name, if there is one that keeps all rules.
pub fn plan_of<L: Library>(
    alloc: Global,
    library: &mut L,
    name: &str,
) -> Result<Option<Plan>, NoMemory> {
    let name = Text::copied(alloc, name.as_bytes())?;
    match front(alloc, library, &name) {
        Front::Plan(plan) => Ok(Some(plan)),
        Front::NoMemory => Err(NoMemory),
        other => {
            drop(other);
            Ok(None)
        }
    }
}
