// What holds of slots in every run of a protocol over a topology that fits it.
ghost use Rattle.std.specs.Prelude.{◌≤◌, ℕ, List, length};
ghost use Rattle.ctl_face.specs.Prelude.{Ctl, last_cycle};
ghost use Rattle.protocol_meaning.specs.Prelude.{FitsPlan, meaning_of, setting_of};
ghost use Rattle.protocol_runs.specs.Prelude.{IsRun, World, rules};
ghost use Rattle.ruby_topology.specs.declared.topology.Topology.{Topology};
ghost use Rattle.run_journal.specs.declared.entry.Entry.{Entry};
ghost use Rattle.run_journal.specs.declared.event.Event.{Event};
ghost use Rattle.slicc_ast.specs.declared.tree.item.Tree.{Tree};
ghost use Rattle.slot_laws.specs.Prelude.{SlotsHold, TakesFreeSlots};

use sequencer::Driver;

/// Each scan of a protocol that fires takes free slots alone: a transition waits where its actions might send more on a buffer than
/// slots are free. So in each world of a run no slot is lost, no more slots are free than a buffer's size says, and none is in use
/// that wasn't there.
pub fn no_send_lacks_a_slot<D: Driver>()
    ensures takes { (trees : List Tree) (t : Topology) (seed cycles limit : ℕ) (driver : D)
        → FitsPlan trees t → cycles ≤ last_cycle → D.least driver ≤ length t.seats
        → TakesFreeSlots (setting_of trees t seed cycles limit driver)
        (rules (meaning_of trees) D.drive (setting_of trees t seed cycles limit driver)) }
    ensures hold { (trees : List Tree) (t : Topology) (seed cycles limit : ℕ) (driver : D)
        → FitsPlan trees t → cycles ≤ last_cycle → D.least driver ≤ length t.seats
        → (history : List Event) (w : World Ctl D) (journal : List Entry)
        → IsRun (rules (meaning_of trees) D.drive (setting_of trees t seed cycles limit driver))
        history w journal
        → SlotsHold (setting_of trees t seed cycles limit driver) w }
{}
