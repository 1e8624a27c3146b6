// The machines of controllers, and the driver's turn among them; and what holds of every run of a protocol, whatever its scans do as long as
// they keep the laws of acts, and with any driver, from the laws of runs over any controllers. These functions do nothing: their contracts
// are the laws.
ghost use Rattle.std.specs.Prelude.{◌≡◌, ◌≢◌, ◌<◌, ◌↔◌, ℕ, List, [], Some, IsSome, slice_get, ◌+◌, None, length, map};
ghost use Rattle.std.specs.List.{AllPairs};
ghost use Rattle.ctl_face.specs.Prelude.{Ctl, AreNumbered, IsOfMachine};
ghost use Rattle.sequencer.specs.Prelude.{Drive, after_drive, FitSeats};
ghost use Rattle.protocol_runs.specs.Prelude.{AreApart, machine_of, SeatSetup, seat_with, seats_in, served, IsAccounted, account, IsAlone, HasFreshNumbers, InvalidExactly, MarksStay, IsOutcome, WakesAsMarked, CarriesMail, IsSound, KeepsMarks, ReportsInvalid, HasEnded, IsRun, Stepped, step, WakesOnce, Place, World, IsSetting, FitsRun, HasSeats, SuitsReceiver, IsMeaning, Meaning, rules, Setting};
ghost use Rattle.run_journal.specs.declared.entry.Entry.{Entry};
ghost use Rattle.run_journal.specs.declared.event.Event.{Event};
ghost use Rattle.run_journal.specs.declared.event.Event.TheVariants.{Turn};

use sequencer::Driver;

/// The machine that is found of a controller is the one in whose range its number is, and one is found exactly of each number below
/// the total, where the ranges follow on one another.
pub fn machines_of_controllers_are_found()
    ensures found { (ranges : List (ℕ × ℕ)) (total machine controller : ℕ)
        → AreNumbered 0 total ranges
        → (machine_of ranges controller ≡ Some machine) ↔ IsOfMachine ranges machine controller }
    ensures some { (ranges : List (ℕ × ℕ)) (total controller : ℕ) → AreNumbered 0 total ranges
        → IsSome (machine_of ranges controller) ↔ (controller < total) }
{}

/// What a driver's turn makes of the controllers is what it makes of its seats, where no two of these are at one controller: each seat
/// afterwards is that of its controller as it was served, and a controller at which there is no seat stays as it is.
pub fn turns_serve_their_seats<D>()
    ensures seats { (setups : List SeatSetup) (controllers : List Ctl) (d : Drive D) (k : ℕ)
        (seat : SeatSetup) (x : Ctl)
        → AllPairs AreApart setups → slice_get setups k ≡ Some seat
        → slice_get controllers seat.controller ≡ Some x
        → slice_get (after_drive (record { seats = seats_in setups controllers; issued = [] }) d).seats k
        ≡ Some (seat_with seat (served setups seat.controller d x)) }
    ensures others { (setups : List SeatSetup) (d : Drive D) (controller : ℕ) (x : Ctl)
        → ((k : ℕ) (seat : SeatSetup) → slice_get setups k ≡ Some seat → seat.controller ≢ controller)
        → served setups controller d x ≡ x }
{}

/// The controllers of a protocol, the messages and credits between them and any driver meet what the laws of runs need.
pub fn protocols_meet_the_premises<D: Driver>()
    ensures sound { (p : Meaning) (s : Setting D) → IsMeaning p → IsSetting D.least s
        → IsSound (rules p D.drive s) (FitsRun s) (SuitsReceiver s) (HasSeats s D.least) }
    ensures marks { (p : Meaning) (s : Setting D) → IsMeaning p → IsSetting D.least s
        → KeepsMarks (rules p D.drive s) }
    ensures mail { (p : Meaning) (s : Setting D) → IsMeaning p → IsSetting D.least s
        → CarriesMail (rules p D.drive s) (FitsRun s) (SuitsReceiver s) (HasSeats s D.least) }
    ensures invalid { (p : Meaning) (s : Setting D) → IsMeaning p → IsSetting D.least s
        → ReportsInvalid (rules p D.drive s) (FitsRun s) (SuitsReceiver s) (HasSeats s D.least) }
{}

/// In each world of a run each controller fits its machine, at a cycle of the run; it is to wake at the arrival of each of its messages
/// and credits that is still to come; and it has fired no more transitions in this cycle than it may.
pub fn controllers_fit<D: Driver>()
    ensures { (p : Meaning) (s : Setting D) → IsMeaning p → IsSetting D.least s
        → (history : List Event) (w : World Ctl D) (journal : List Entry)
        → IsRun (rules p D.drive s) history w journal
        → (c : ℕ) (place : Place Ctl) → slice_get w.places c ≡ Some place
        → FitsRun s c place.controller w.now }
{}

/// In each world of a run that goes on, the seats fit the driver: a turn of it may be made there.
pub fn seats_fit_the_driver<D: Driver>()
    ensures { (p : Meaning) (s : Setting D) → IsMeaning p → IsSetting D.least s
        → (history : List Event) (w : World Ctl D) (journal : List Entry)
        → IsRun (rules p D.drive s) history w journal → w.verdict ≡ None
        → FitSeats (D.least w.driver)
        (seats_in s.seats (map (λ (place : Place Ctl). place.controller) w.places)) }
{}

/// In a run each controller that must wake at a cycle ends its wake-up in it once, and no other controller does.
pub fn wakes_once<D: Driver>()
    ensures { (p : Meaning) (s : Setting D) → IsMeaning p → IsSetting D.least s
        → (history : List Event) (w : World Ctl D) (journal : List Entry)
        → IsRun (rules p D.drive s) history w journal → WakesOnce (rules p D.drive s) history }
{}

/// In a run no message number is sent twice, each one that was sent is in exactly one place, no other is in one, and the account's
/// other parts add up to its first.
pub fn accounts_for_each_message<D: Driver>()
    ensures accounted { (p : Meaning) (s : Setting D) → IsMeaning p → IsSetting D.least s
        → (history : List Event) (w : World Ctl D) (journal : List Entry)
        → IsRun (rules p D.drive s) history w journal
        → IsAccounted (rules p D.drive s) journal w }
    ensures adds_up { (p : Meaning) (s : Setting D) → IsMeaning p → IsSetting D.least s
        → (history : List Event) (w : World Ctl D) (journal : List Entry)
        → IsRun (rules p D.drive s) history w journal
        → let a = account (rules p D.drive s) journal w.places in
        a.sent ≡ a.consumed + a.queued + a.stalled + a.recycled }
{}

/// In each world of a run a number that its actor hasn't given yet is in no inbox: the next numbers of each controller, and of the
/// driver, are new wherever they come.
pub fn numbers_are_fresh<D: Driver>()
    ensures { (p : Meaning) (s : Setting D) → IsMeaning p → IsSetting D.least s
        → (history : List Event) (w : World Ctl D) (journal : List Entry)
        → IsRun (rules p D.drive s) history w journal
        → HasFreshNumbers (rules p D.drive s) w }
{}

/// In a run the end of a wake-up says `invalid` exactly where its scan tried a pair without a transition, and then with that
/// address, state and event; and no transition fires there.
pub fn invalid_comes_exactly<D: Driver>()
    ensures { (p : Meaning) (s : Setting D) → IsMeaning p → IsSetting D.least s
        → (history : List Event) (w : World Ctl D) (journal : List Entry)
        → IsRun (rules p D.drive s) history w journal
        → InvalidExactly (rules p D.drive s) history journal }
{}

/// One worker makes one run of a setting, and a history leads to one world and one journal.
pub fn one_worker_makes_one_run<D: Driver>()
    ensures history { (p : Meaning) (s : Setting D) → IsMeaning p → IsSetting D.least s
        → (history other : List Event) (w v : World Ctl D) (journal told : List Entry)
        → IsRun (rules p D.drive s) history w journal → HasEnded w
        → IsAlone (rules p D.drive s) history
        → IsRun (rules p D.drive s) other v told → HasEnded v → IsAlone (rules p D.drive s) other
        → history ≡ other }
    ensures end { (p : Meaning) (s : Setting D)
        → (history : List Event) (w v : World Ctl D) (journal told : List Entry)
        → IsRun (rules p D.drive s) history w journal → IsRun (rules p D.drive s) history v told
        → (w ≡ v) × (journal ≡ told) }
{}

/// No event of a run loses a mark that a controller has for a later cycle.
pub fn no_mark_is_lost<D: Driver>()
    ensures { (p : Meaning) (s : Setting D) → IsMeaning p → IsSetting D.least s
        → (history : List Event) (e : Event) (w : World Ctl D)
        (journal : List Entry) (st : Stepped Ctl D)
        → IsRun (rules p D.drive s) history w journal
        → step (rules p D.drive s) (length journal) w e ≡ Some st
        → MarksStay (rules p D.drive s) w st.world }
{}

/// A turn ends the run with its least-numbered stopped controller, or, where none has stopped, with the first verdict that comes once
/// the driver has acted, or goes on to the next cycle. Where it goes on, exactly those controllers must wake in the new cycle that had
/// a mark for it.
pub fn turns_end_or_go_on<D: Driver>()
    ensures outcome { (p : Meaning) (s : Setting D) (n : ℕ) (w : World Ctl D) (worker : ℕ)
        (st : Stepped Ctl D)
        → step (rules p D.drive s) n w (Turn worker) ≡ Some st
        → IsOutcome (rules p D.drive s) n w st }
    ensures marks { (p : Meaning) (s : Setting D) → IsMeaning p → IsSetting D.least s
        → (n : ℕ) (w : World Ctl D) (worker : ℕ) (st : Stepped Ctl D)
        → step (rules p D.drive s) n w (Turn worker) ≡ Some st → st.world.verdict ≡ None
        → WakesAsMarked (rules p D.drive s) w st.world }
{}
