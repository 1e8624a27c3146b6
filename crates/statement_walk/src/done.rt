// The bodies of actions and of in ports, done from their beginning.
ghost use Rattle.std.specs.Prelude.{◌≡◌};
ghost use Rattle.acts.specs.Prelude.{DoesAs, itself};
ghost use Rattle.body_meaning.specs.Prelude.{reading, port_done, about_left, action_done};
ghost use Rattle.statement_walk.specs.Prelude.{HasFew};

use crate::bodies::{body_of_action, body_of_port};
use crate::functions::body_done;
use acts::{BodyFault, Local, Trouble};
use body_meaning::{About, Flow, Frame, Scope};
use ruby_base::Seq;
use ruby_symbols::PortSymbol;
use std::alloc::Global;

fn about_left(a: About, frame: &Frame) -> About
    ensures { result ≡ about_left a frame.now }
{
    match frame.about {
        Some(left) => left,
        None => a,
    }
}

/// Does the action of this number, about this, and answers what it has left.
pub fn action_done<T: Local>(
    alloc: Global,
    s: Scope<'_>,
    a: About,
    number: u16,
    local: &mut T,
) -> Result<About, Trouble>
    requires few { HasFew s.machine.now }
    ensures { DoesAs itself (action_done (reading s.entry) a number) result (T.view local.old)
        (T.view local.new) }
{
    let Some(block) = body_of_action(s, number) else {
        return Err(Trouble::from(BodyFault::Reference));
    };
    let mut frame = Frame {
        names: Seq::new(alloc),
        about: Some(a),
    };
    let _flow = body_done(alloc, s, &block.statements, &mut frame, local)?;
    Ok(about_left(a, &frame))
}

/// Does the body of an in port, and answers how it ends.
pub fn port_done<T: Local>(
    alloc: Global,
    s: Scope<'_>,
    p: &PortSymbol,
    local: &mut T,
) -> Result<Flow, Trouble>
    requires few { HasFew s.machine.now }
    ensures { DoesAs itself (port_done (reading s.entry) p.now) result (T.view local.old)
        (T.view local.new) }
{
    let Some(block) = body_of_port(s.tree, p) else {
        return Err(Trouble::from(BodyFault::Reference));
    };
    let mut frame = Frame {
        names: Seq::new(alloc),
        about: None,
    };
    let flow = body_done(alloc, s, &block.statements, &mut frame, local)?;
    Ok(flow)
}
