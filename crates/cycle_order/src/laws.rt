// What cycle order is to a journal. This function does nothing: its contract is the law.
ghost use Rattle.std.specs.Prelude.{◌≡◌, ◌++◌, ◌∷◌, ℕ, List, length, true};
ghost use Rattle.std.specs.List.{filter};
ghost use Rattle.cycle_order.specs.Prelude.{HasNoTurn, Rises, is_turned, ordered};
ghost use Rattle.run_journal.specs.Prelude.{part_of};
ghost use Rattle.run_journal.specs.declared.entry.Entry.{Entry};

/// A journal in cycle order has the same entries of each controller in the same order, the same turns, and as many entries. Each cycle is
/// put in order alone, by controllers that don't fall; and one that is in order stays as it is.
pub fn cycle_order_keeps_parts()
    ensures parts { (journal : List Entry) (controller : ℕ)
        → part_of controller (ordered journal) ≡ part_of controller journal }
    ensures turns { (journal : List Entry)
        → filter is_turned (ordered journal) ≡ filter is_turned journal }
    ensures count { (journal : List Entry) → length (ordered journal) ≡ length journal }
    ensures cycles { (before : List Entry) (e : Entry) (after : List Entry) → is_turned e ≡ true
        → ordered (before ++ e ∷ after) ≡ ordered before ++ e ∷ ordered after }
    ensures rises { (cycle : List Entry) → HasNoTurn cycle → Rises (ordered cycle) }
    ensures stays { (cycle : List Entry) → HasNoTurn cycle → Rises cycle → ordered cycle ≡ cycle }
{}
