// What holds of every run of a protocol, whoever does its events and in whatever order they come, with any driver. These functions do
// nothing: their contracts are the laws.
ghost use Rattle.std.specs.Prelude.{◌≡◌, None, List};
ghost use Rattle.ctl_face.specs.Prelude.{Ctl};
ghost use Rattle.cycle_order.specs.Prelude.{ordered};
ghost use Rattle.protocol_runs.specs.Prelude.{HasEnded, IsAlone, IsFramedMeaning, IsIdle, IsMeaning, IsRun, IsSetting, Meaning, Setting, World, rules};
ghost use Rattle.run_journal.specs.declared.entry.Entry.{Entry};
ghost use Rattle.run_journal.specs.declared.event.Event.{Event};
ghost use Rattle.schedule_laws.specs.Prelude.{ActsAreEvents, ActsExchange, ArrivalsSwap, IsEveryAnswer, IsOne};

use run_journal::finals_follow_from_parts;
use sequencer::Driver;

/// Messages with different numbers, and credits, may come to a controller in either order.
pub fn arrivals_swap<D: Driver>()
    ensures { (p : Meaning) (s : Setting D) → ArrivalsSwap (rules p D.drive s) }
{}

/// One act of a controller is what a worker's events on it do. Acts of two controllers that are due in one world come in either order: each
/// does what it would do first, but that it finds what the other has sent, and both lead to one world.
pub fn acts_exchange<D: Driver>()
    ensures events { (p : Meaning) (s : Setting D) → ActsAreEvents (rules p D.drive s) }
    ensures exchange { (p : Meaning) (s : Setting D) → IsMeaning p → IsFramedMeaning p → IsSetting D.least s
        → ActsExchange (rules p D.drive s) }
{}

/// Each ended run of a setting has the same end: any two have one world, one verdict, the same entries of each controller and the same
/// turns, and so one account and one list of final states. In cycle order they have one journal, which is that of a run that worker 0
/// makes alone; so it is of each run up to where a cycle may turn. The journal of worker 0's own run is in cycle order as it is.
pub fn ended_runs_answer_alike<D: Driver>()
    ensures alike { (p : Meaning) (s : Setting D) → IsMeaning p → IsFramedMeaning p → IsSetting D.least s
        → (history : List Event) (w : World Ctl D) (journal : List Entry)
        → IsRun (rules p D.drive s) history w journal → HasEnded w
        → IsEveryAnswer (rules p D.drive s) w journal }
    ensures one { (p : Meaning) (s : Setting D) → IsMeaning p → IsFramedMeaning p → IsSetting D.least s
        → (history : List Event) (w : World Ctl D) (journal : List Entry)
        → IsRun (rules p D.drive s) history w journal → HasEnded w
        → IsOne (rules p D.drive s) w journal }
    ensures idle { (p : Meaning) (s : Setting D) → IsMeaning p → IsFramedMeaning p → IsSetting D.least s
        → (history : List Event) (w : World Ctl D) (journal : List Entry)
        → IsRun (rules p D.drive s) history w journal → w.verdict ≡ None
        → IsIdle (rules p D.drive s) w → IsOne (rules p D.drive s) w journal }
    ensures alone { (p : Meaning) (s : Setting D) → IsMeaning p → IsFramedMeaning p → IsSetting D.least s
        → (history : List Event) (w : World Ctl D) (journal : List Entry)
        → IsRun (rules p D.drive s) history w journal → HasEnded w
        → IsAlone (rules p D.drive s) history → ordered journal ≡ journal }
{
    finals_follow_from_parts();
}
