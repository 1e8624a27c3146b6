// What a statement names, which is to be there.
ghost use Rattle.acts.specs.declared.body_fault.BodyFault.TheVariants as own;
ghost use Rattle.acts.specs.Prelude.{found, DoesAs, itself};
ghost use Rattle.body_meaning.specs.Prelude.{value_call, port_named, reading};

use acts::{BodyFault, Local, Trouble, Value};
use body_meaning::{Scope, port_named, value_call};
use slicc_ast::tree::Name;

/// What was found, or else the fault of a body that names what isn't there.
#[tactic(auto, using(acts::proofs::Walk::walk_steps, body_walk::proofs::Ends::last_steps))]
pub fn found<A, T: Local>(o: Option<A>, local: &T) -> Result<A, Trouble>
    ensures { DoesAs itself (found own.Reference o) result (T.view local.now) (T.view local.now) }
{
    match o {
        Some(x) => Ok(x),
        None => Err(Trouble::from(BodyFault::Reference)),
    }
}

/// The number of the buffer that the port of a name is on.
pub fn port<T: Local>(s: Scope<'_>, name: &Name, local: &T) -> Result<u16, Trouble>
    ensures { DoesAs itself (found own.Reference (port_named (reading s.entry).machine
        name.now.text)) result (T.view local.now) (T.view local.now) }
{
    found(port_named(s.machine, name.text.as_slice()), local)
}

// The number of the call of a name on a value.
pub(crate) fn call_on<T: Local>(v: &Value, name: &Name, local: &T) -> Result<u16, Trouble>
    ensures { DoesAs itself (found own.Reference (value_call v.now name.now.text)) result
        (T.view local.now) (T.view local.now) }
{
    found(value_call(v, name.text.as_slice()), local)
}
