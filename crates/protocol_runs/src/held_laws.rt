// What holds of the controllers that workers hold, in every run of a protocol, from the laws of runs over any controllers. These
// functions do nothing: their contracts are the laws.
ghost use Rattle.std.specs.Prelude.{ℕ};
ghost use Rattle.protocol_runs.specs.Prelude.{Setting, Meaning, rules, HeldControllersGrow, FitsRun, SuitsReceiver, IsMeaning, IsSetting, IsFramed, IsFramedMeaning, HeldFires, HeldEnds, HeldIsReleased, OthersLeaveHeld, TakesHold, CopiesMayCome};

use sequencer::Driver;

/// While a worker holds a controller, no other worker does anything to it, and no turn is made: it only grows by the messages that come
/// to it.
pub fn held_controllers_grow<D: Driver>()
    ensures { (p : Meaning) (s : Setting D) → HeldControllersGrow (rules p D.drive s) }
{}

/// Where messages and credits that come later are nothing to each scan of a protocol, they are nothing to the scan of a controller of a
/// run to which they come.
pub fn runs_are_framed<D: Driver>()
    ensures { (p : Meaning) (s : Setting D) → IsSetting D.least s → IsFramedMeaning p
        → IsFramed (rules p D.drive s) (FitsRun s) (SuitsReceiver s) }
{}

/// What a worker has of a controller that it holds is the controller that it took, with its own events on it alone, and is enough to go
/// on with: others leave it held so, and by its scan the worker fires, or ends the wake-up, or it gives the controller back, as it
/// would by the controller in the world.
pub fn workers_go_on_with_what_they_hold<D: Driver>()
    ensures takes { (p : Meaning) (s : Setting D) → IsMeaning p → IsSetting D.least s
        → TakesHold (rules p D.drive s) (FitsRun s) (SuitsReceiver s) }
    ensures others { (p : Meaning) (s : Setting D) → IsMeaning p → IsSetting D.least s
        → OthersLeaveHeld (rules p D.drive s) (FitsRun s) (SuitsReceiver s) }
    ensures fires { (p : Meaning) (s : Setting D) → IsMeaning p → IsFramedMeaning p
        → IsSetting D.least s → HeldFires (rules p D.drive s) (FitsRun s) (SuitsReceiver s) }
    ensures ends { (p : Meaning) (s : Setting D) → IsMeaning p → IsFramedMeaning p
        → IsSetting D.least s → HeldEnds (rules p D.drive s) (FitsRun s) (SuitsReceiver s) }
    ensures releases { (p : Meaning) (s : Setting D)
        → HeldIsReleased (rules p D.drive s) (FitsRun s) (SuitsReceiver s) }
{}

/// What comes to a controller can stand beside it, while it is held and while it isn't: messages that others send to it may come to it
/// beside those that are there already, in any number, and the controller in the world is that one to which all have come.
pub fn copies_may_come<D: Driver>()
    ensures { (p : Meaning) (s : Setting D) → IsMeaning p → IsSetting D.least s
        → CopiesMayCome (rules p D.drive s) (FitsRun s) (SuitsReceiver s) }
{}
