// What holds of every journal. These functions do nothing: their contracts are the laws.
ghost use Rattle.std.specs.Prelude.{◌≡◌, ℕ, List};
ghost use Rattle.run_journal.specs.Prelude.{AreFinals, part_of};
ghost use Rattle.run_journal.specs.declared.entry.Entry.{Entry};
ghost use Rattle.run_journal.specs.declared.summary.Final.{Final};

/// Each journal has one list of final states.
pub fn finals_are_one_list()
    ensures at_least_one { (journal : List Entry) → (all : List Final) × AreFinals journal all }
    ensures at_most_one { (journal : List Entry) (a b : List Final) → AreFinals journal a → AreFinals journal b → a ≡ b }
{}

/// The final states depend on the controllers' parts alone: where two journals have the same part for each controller,
/// they have the same final states, in whatever order the entries of different controllers stand.
pub fn finals_follow_from_parts()
    ensures { (j k : List Entry) (all : List Final) → ((controller : ℕ) → part_of controller j ≡ part_of controller k) → AreFinals j all → AreFinals k all }
{}
