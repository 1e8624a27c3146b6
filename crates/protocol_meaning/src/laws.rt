// What holds of every protocol, of every topology that fits it, and of every run of an accepted one with any driver. These functions do
// nothing: their contracts are the laws.
ghost use Rattle.std.specs.Prelude.{◌≡◌, ◌≤◌, ℕ, IfOk, List, Ok, Result, Some, length, slice_get};
ghost use Rattle.std.specs.List.{All};
ghost use Rattle.ruby_base.specs.declared.memory.NoMemory.{NoMemory};
ghost use Rattle.slicc_ast.specs.declared.tree.item.Tree.{Tree};
ghost use Rattle.ruby_value.specs.declared.setup.MachineSetup.{MachineSetup};
ghost use Rattle.ruby_value.specs.declared.setup.Sizes.{Sizes};
ghost use Rattle.ruby_symbols.specs.declared.machine.TransitionSymbol.{TransitionSymbol};
ghost use Rattle.slicc_plan.specs.Prelude.{IsAccepted, machines_of, setup_of, needs, symbols_of};
ghost use Rattle.ruby_topology.specs.declared.topology.Topology.{Topology};
ghost use Rattle.ctl_face.specs.Prelude.{last_cycle, LocalView, Ctl};
ghost use Rattle.body_meaning.specs.Prelude.{Reading, need, IsRoundOf};
ghost use Rattle.protocol_meaning.specs.Prelude.{FitsPlan, KeepsRanges, meaning_of, scan_of, reading_of, StaysIfFired, outcome_of_round, setting_of, ranges_of, ControllerWithin, EntryWithin};
ghost use Rattle.protocol_runs.specs.Prelude.{IsSetting, IsMeaning, IsRun, Place, World, rules};
ghost use Rattle.body_meaning.specs.declared.frame.RoundEnd.{RoundEnd};
ghost use Rattle.ruby_topology.specs.Prelude.{IsPlainOf, IsTopologyOf};
ghost use Rattle.run_journal.specs.declared.entry.Entry.{Entry};
ghost use Rattle.run_journal.specs.declared.event.Event.{Event};

use machine_setup::setup_is_machine;
use sequencer::Driver;
use slicc_plan::{
    lists_have_numbers, network_has_one_type, networks_are_received_once, networks_have_numbers,
};

/// What any trees mean is what the laws of runs need: a scan that fires leaves what acts leave, and tells what they have done to
/// messages; one in which nothing fires leaves the controller as it was, but for the mark of a stall; and one stops as `invalid`
/// exactly where it has looked up a state and an event for which no transition is written, and with these. It needs no premise on
/// the trees.
pub fn meanings_are_lawful()
    ensures { (trees : List Tree) → IsMeaning (meaning_of trees) }
{}

/// What serves a protocol answers by a round what a run has of the scan, where the round began in the one local, with the transitions
/// that its controller has fired in this cycle, and left the other.
pub fn rounds_are_scans()
    ensures { (trees : List Tree) (machine limit : ℕ) (before after : LocalView)
        (end : RoundEnd)
        → IsRoundOf (scan_of trees machine limit before.ctl.fired before) (Ok end) after before
        → ((meaning_of trees).scan machine before limit).outcome ≡ outcome_of_round end after before }
{}

/// A round that fires leaves its local in the same scan, so that what was done in it fits the controller with which it began.
pub fn fired_rounds_stay()
    ensures { (trees : List Tree) (machine limit fired : ℕ) (before after : LocalView)
        (answer : Result RoundEnd NoMemory)
        → IsRoundOf (scan_of trees machine limit fired before) answer after before
        → IfOk answer (λ end. StaysIfFired end after before) }
{}

/// A run of a protocol with a topology that fits it is one of which the laws of runs hold, where its bound on cycles is within that
/// of all runs, and the driver finds the seats that it needs. A driver that needs one seat finds it.
pub fn settings_are_lawful<D: Driver>()
    ensures enough { (trees : List Tree) (t : Topology) (seed cycles limit : ℕ) (driver : D)
        → FitsPlan trees t → cycles ≤ last_cycle → D.least driver ≤ length t.seats
        → IsSetting D.least (setting_of trees t seed cycles limit driver) }
    ensures one_seat { (trees : List Tree) (t : Topology) (seed cycles limit : ℕ)
        (driver : D)
        → FitsPlan trees t → cycles ≤ last_cycle → D.least driver ≤ 1
        → IsSetting D.least (setting_of trees t seed cycles limit driver) }
{}

/// What a machine is to its controllers keeps the controllers of all machines where the machine's built-in calls look for them: after
/// its own values, in the last of its tables.
pub fn calls_find_the_machines()
    ensures { (trees : List Tree) (machine : ℕ) (sizes : Sizes) (r : Reading)
        (setup : MachineSetup)
        → reading_of trees machine ≡ Some r → setup_of trees machine sizes ≡ Some setup
        → length sizes.machines ≡ length (machines_of trees)
        → KeepsRanges r.kept setup sizes.machines }
{}

/// A transition of an accepted protocol needs as many free lines of a table as a try of it asks for, all by the numbers of symbols.
pub fn needs_are_those_of_tries()
    ensures { (trees : List Tree) (machine transition table : ℕ) (s : Reading)
        (row : TransitionSymbol)
        → IsAccepted trees → reading_of trees machine ≡ Some s
        → slice_get s.machine.transitions transition ≡ Some row
        → needs trees machine transition table ≡ need s row.actions table }
{}

/// The topology that a file says for an accepted protocol fits it.
pub fn topologies_fit()
    ensures { (trees : List Tree) (bytes : List ℕ) (t : Topology) → IsAccepted trees
        → IsTopologyOf (symbols_of trees) bytes t → FitsPlan trees t }
{
    setup_is_machine();
    network_has_one_type();
    lists_have_numbers();
    networks_have_numbers();
    networks_are_received_once();
}

/// The topology of a plain run of an accepted protocol fits it.
pub fn plain_topologies_fit()
    ensures { (trees : List Tree) (t : Topology) → IsAccepted trees → IsPlainOf (symbols_of trees) t
        → FitsPlan trees t }
{
    setup_is_machine();
    network_has_one_type();
    lists_have_numbers();
    networks_have_numbers();
    networks_are_received_once();
}

/// In each world of a run, in each controller, each value of an enumeration is a member of it, or 0 where that has none, and each
/// number of a controller, also in a set of them, is that of one of the world's; and each state of the built-in map is one of the
/// machine's. Each transition that an entry tells has a state, an event and a next state of the controller's machine, and so has each
/// stop, as far as these are known.
pub fn values_stay_members<D: Driver>()
    ensures controllers { (trees : List Tree) (t : Topology) (seed cycles limit : ℕ)
        (driver : D)
        → IsAccepted trees → FitsPlan trees t → cycles ≤ last_cycle → D.least driver ≤ length t.seats
        → (history : List Event) (w : World Ctl D) (journal : List Entry)
        → IsRun (rules (meaning_of trees) D.drive (setting_of trees t seed cycles limit driver))
        history w journal
        → (c : ℕ) (place : Place Ctl) → slice_get w.places c ≡ Some place
        → ControllerWithin trees (ranges_of t) (length w.places) c place.controller }
    ensures entries { (trees : List Tree) (t : Topology) (seed cycles limit : ℕ)
        (driver : D)
        → IsAccepted trees → FitsPlan trees t → cycles ≤ last_cycle → D.least driver ≤ length t.seats
        → (history : List Event) (w : World Ctl D) (journal : List Entry)
        → IsRun (rules (meaning_of trees) D.drive (setting_of trees t seed cycles limit driver))
        history w journal
        → All (EntryWithin trees (ranges_of t) (length w.places)) journal }
{}
