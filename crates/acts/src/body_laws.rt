ghost use Rattle.std.specs.Prelude.{◌≡◌, Err, ℕ, List};
ghost use Rattle.std.specs.List.{All};
ghost use Rattle.ruby_value.specs.declared.fault.Fault.TheVariants as fault;
ghost use Rattle.ruby_value.specs.declared.setup.MachineSetup.{MachineSetup};
ghost use Rattle.ctl_face.specs.Prelude.{IsLawful, FitsReceiver, messages_among, IsInRun, LocalView, SameScan};
ghost use Rattle.acts.specs.Prelude.{Acting, run, HoldsAfter, Added, AreNew, after_adding, with_added, CountsStay, IsMarked, MarksStay, HasMailed};

/// What holds of each lawful local holds after each body, which leaves it in the same scan, and counts no transition and doesn't stop
/// the controller; and so it is of a local of a run, whose posted copies then fit their receivers.
pub fn bodies_keep_what_holds<A>()
    ensures lawful { (p : Acting A) (v : LocalView) → IsLawful v → HoldsAfter IsLawful (run p v) }
    ensures scan { (p : Acting A) (v : LocalView) → HoldsAfter (SameScan v) (run p v) }
    ensures counts { (p : Acting A) (v : LocalView) → HoldsAfter (CountsStay v) (run p v) }
    ensures in_run { (p : Acting A) (machines : List MachineSetup) (ranges : List (ℕ × ℕ))
        (v : LocalView)
        → IsInRun machines ranges v → HoldsAfter (IsInRun machines ranges) (run p v) }
    ensures receivers { (p : Acting A) (machines : List MachineSetup) (ranges : List (ℕ × ℕ))
        (v : LocalView)
        → IsInRun machines ranges v
        → HoldsAfter (λ w. All (FitsReceiver machines ranges) (messages_among w.acts.posted))
        (run p v) }
{}

/// No body takes a mark away, or sets one for its own cycle or an earlier one; and what it puts off, sends to its own controller or
/// has wait is marked, where each message that is still to come has its mark before the body. A lawful local needn't have these: in a
/// run each arrival sets its mark, and none is dropped before its cycle.
pub fn bodies_keep_marks<A>()
    ensures stay { (p : Acting A) (v : LocalView) → HoldsAfter (MarksStay v) (run p v) }
    ensures marked { (p : Acting A) (v : LocalView) → IsMarked v → HoldsAfter IsMarked (run p v) }
{}

/// What was in the inbox as the scan began, and what it has sent, is after a body consumed, posted or in the inbox; and what it has sent
/// has the sender's next numbers. Of what waits or was recycled this says nothing: such a message stays in the inbox.
pub fn bodies_move_mail<A>()
    ensures { (p : Acting A) (v : LocalView) → IsLawful v → HoldsAfter HasMailed (run p v) }
{}

/// The fault `invalid` comes of no body: it is that of a try for which no transition is written.
pub fn bodies_never_stop_as_invalid<A>()
    ensures { (p : Acting A) (v : LocalView) → run p v ≡ Err fault.Invalid → ⊥ }
{}

/// Messages, credits and marks that come to a controller, and are for later cycles, change what a body does by their addition alone.
pub fn what_comes_later_changes_nothing<A>()
    ensures { (p : Acting A) (v : LocalView) (more : Added) → IsLawful v → AreNew v more
        → run p (with_added more v) ≡ after_adding more (run p v) }
{}
