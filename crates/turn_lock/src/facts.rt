ghost use Rattle.std.specs.Prelude.{ℕ, Option};
ghost use Rattle.atomic_table.specs.Table.{State};
ghost use Rattle.turn_lock.specs.declared.view.View.{View};
ghost use Rattle.turn_lock.specs.Tickets.{Rule};
ghost use Rattle.turn_lock.specs.Between.{Between};

use crate::Kept;

/// A law, and no code: what holds between any two steps of the threads follows from the rule that each step keeps. So there is one
/// plan and one history, at most 64 tickets are out, no two seats have the same, and only the seat whose ticket is served has the value.
pub fn hold_between_steps<V: Kept>()
    ensures { (n : ℕ) (p : V.Plan) (s : State (Option V) (View V.Plan)) → Rule V.plan V.history n p s → Between V.plan V.history n p s }
{}
