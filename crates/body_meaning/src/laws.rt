ghost use Rattle.std.specs.Prelude.{◌≡◌, ◌⊎◌, ℕ};
ghost use Rattle.ctl_face.specs.Prelude.{again, LocalView};
ghost use Rattle.run_journal.specs.declared.entry.StopAt.{StopAt};
ghost use Rattle.body_meaning.specs.Prelude.{Reading, scan};
ghost use Rattle.body_meaning.specs.declared.frame.RoundEnd.TheVariants.{Full, Idle, Stop};

/// A scan that stops leaves the controller as it was, and so does one that is full. One that fires no transition leaves it as it was, or
/// so that it wakes in the next cycle.
pub fn scans_that_fire_nothing_change_nothing()
    ensures stopped { (s : Reading) (limit fired : ℕ) (v : LocalView)
        (at : StopAt)
        → (scan s limit fired v).end ≡ Stop at → (scan s limit fired v).view ≡ v }
    ensures full { (s : Reading) (limit fired : ℕ) (v : LocalView)
        → (scan s limit fired v).end ≡ Full → (scan s limit fired v).view ≡ v }
    ensures idle { (s : Reading) (limit fired : ℕ) (v : LocalView)
        → (scan s limit fired v).end ≡ Idle
        → ((scan s limit fired v).view ≡ v) ⊎ ((scan s limit fired v).view ≡ again v) }
{}
