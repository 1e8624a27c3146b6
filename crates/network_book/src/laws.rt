// What holds of the numbers of events, and of passes. These functions do nothing: their contracts are the laws.
ghost use Rattle.std.specs.Prelude.{◌≡◌, ◌≤◌, ◌++◌, ℕ, List, [], length};
ghost use Rattle.std.specs.List.{All};
ghost use Rattle.run_journal.specs.declared.event.Event.{Event};
ghost use Rattle.ctl_face.specs.Prelude.{Ctl, last_cycle};
ghost use Rattle.protocol_runs.specs.Prelude.{AreOfOthers, World};
ghost use Rattle.protocol_meaning.specs.Prelude.{FitsPlan};
ghost use Rattle.ruby_world.specs.Prelude.{IsWorldOf, WorldView};
ghost use Rattle.ruby_world.specs.declared.world.Held.{Held};
ghost use Rattle.turn_lock.specs.Prelude.{owned, owner};
ghost use Rattle.network_book.specs.declared.plan.RunPlan.{RunPlan};
ghost use Rattle.network_book.specs.Prelude.{HoldsAfter, IsKnown, IsSmall, events_of, number_of, numbers_of, worker_of};

use protocol_meaning::{meanings_are_lawful, settings_are_lawful};
use protocol_runs::controllers_fit;
use ruby_world::held_controllers_stay;
use sequencer::Driver;

/// Where workers and controllers are below 256, the numbers of a history tell it, and the owner of an event's number is its worker. Numbers
/// of which a worker owns none are of events none of which is that worker's.
pub fn events_have_numbers()
    ensures back { (history : List Event) → All IsSmall history
        → events_of (numbers_of history) ≡ history }
    ensures owner { (e : Event) → IsSmall e → owner (number_of e) ≡ worker_of e }
    ensures others { (worker c : ℕ) (numbers : List ℕ) → owned worker numbers ≡ []
        → AreOfOthers worker c (events_of numbers) }
{}

/// What a worker holds by what its pass has seen, it holds by every longer history of the run, where no added event is its own on that
/// controller. So it goes on by its own pass with what it holds, and needs nobody else's.
pub fn passes_hand_over<D: Driver>()
    ensures { (run : RunPlan D) (seen rest : List ℕ) (worker : ℕ) (h : Held)
        → IsKnown D.least D.drive run (seen ++ rest)
        → AreOfOthers worker h.controller (events_of rest)
        → HoldsAfter D.least D.drive run seen worker h
        → HoldsAfter D.least D.drive run (seen ++ rest) worker h }
{
    meanings_are_lawful();
    settings_are_lawful::<D>();
    held_controllers_stay::<D>();
}

/// A run has at most 64 controllers, so that each has its place in the number of an event.
pub(crate) fn controllers_are_few<D: Driver>()
    ensures { (v : WorldView D) → FitsPlan v.trees v.topology → v.limits.cycles ≤ last_cycle
        → D.least v.opening ≤ length v.topology.seats
        → (w : World Ctl D) → IsWorldOf D.drive v w → length w.places ≤ 64 }
{
    meanings_are_lawful();
    settings_are_lawful::<D>();
    controllers_fit::<D>();
}
