// What holds of slots in every run of a protocol.
ghost use Rattle.std.specs.Prelude.{ℕ, List};
ghost use Rattle.ctl_face.specs.Prelude.{Ctl};
ghost use Rattle.protocol_runs.specs.Prelude.{IsMeaning, IsRun, IsSetting, Meaning, Setting, World, rules};
ghost use Rattle.run_journal.specs.declared.entry.Entry.{Entry};
ghost use Rattle.run_journal.specs.declared.event.Event.{Event};
ghost use Rattle.slot_laws.specs.Prelude.{SlotsHold, TakesFreeSlots};

use sequencer::Driver;

/// In each world of a run no slot is lost, no more slots are free than a buffer's size says, and none is in use that wasn't there, where
/// each scan that fires takes free slots alone.
pub fn slots_hold<D: Driver>()
    ensures { (p : Meaning) (s : Setting D) → IsMeaning p → IsSetting D.least s
        → TakesFreeSlots s (rules p D.drive s)
        → (history : List Event) (w : World Ctl D) (journal : List Entry)
        → IsRun (rules p D.drive s) history w journal → SlotsHold s w }
{}
