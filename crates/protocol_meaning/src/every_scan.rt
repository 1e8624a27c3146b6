// What holds of every scan. These functions do nothing: their contracts are the laws.
ghost use Rattle.std.specs.Prelude.{◌≡◌, ℕ, List};
ghost use Rattle.std.specs.List.{All};
ghost use Rattle.ruby_value.specs.declared.setup.MachineSetup.{MachineSetup};
ghost use Rattle.ctl_face.specs.Prelude.{IsLawful, FitsReceiver, IsInRun, messages_among, LocalView, SameScan};
ghost use Rattle.acts.specs.Prelude.{Added, AreNew, with_added, CountsStay, IsMarked, MarksStay, IsLeft, HasMailed};
ghost use Rattle.body_meaning.specs.Prelude.{Reading, pairs_tried, scan};
ghost use Rattle.protocol_meaning.specs.Prelude.{scanned_with};

/// However a scan ends, it leaves a local that acts leave of the one in which it began. So it stays lawful and in the same scan, counts
/// no transition and doesn't stop the controller; no mark is taken away or set for this cycle, and no message or credit that is to come
/// is forgotten; what was in the inbox and what was sent is consumed, posted or in the inbox; and in a run the posted copies fit their
/// receivers.
pub fn scans_keep_what_holds()
    ensures left { (s : Reading) (limit fired : ℕ) (v : LocalView) → IsLeft v (scan s limit fired v).view }
    ensures lawful { (s : Reading) (limit fired : ℕ) (v : LocalView)
        → IsLawful v → IsLawful (scan s limit fired v).view }
    ensures same { (s : Reading) (limit fired : ℕ) (v : LocalView) → SameScan v (scan s limit fired v).view }
    ensures counts { (s : Reading) (limit fired : ℕ) (v : LocalView) → CountsStay v (scan s limit fired v).view }
    ensures marks { (s : Reading) (limit fired : ℕ) (v : LocalView) → MarksStay v (scan s limit fired v).view }
    ensures marked { (s : Reading) (limit fired : ℕ) (v : LocalView)
        → IsMarked v → IsMarked (scan s limit fired v).view }
    ensures mailed { (s : Reading) (limit fired : ℕ) (v : LocalView)
        → IsLawful v → HasMailed (scan s limit fired v).view }
    ensures receivers { (s : Reading) (limit fired : ℕ) (machines : List MachineSetup)
        (ranges : List (ℕ × ℕ)) (v : LocalView)
        → IsInRun machines ranges v
        → All (FitsReceiver machines ranges)
        (messages_among (scan s limit fired v).view.acts.posted) }
{}

/// Messages, credits and marks that come to a controller, and are for later cycles, change what a scan does by their addition alone: it ends in
/// the same way, and tries the same pairs.
pub fn what_comes_later_changes_no_scan()
    ensures scan { (s : Reading) (limit fired : ℕ) (v : LocalView) (more : Added)
        → IsLawful v → AreNew v more
        → scan s limit fired (with_added more v) ≡ scanned_with more (scan s limit fired v) }
    ensures pairs { (s : Reading) (limit fired : ℕ) (v : LocalView) (more : Added)
        → IsLawful v → AreNew v more
        → pairs_tried s limit fired (with_added more v) ≡ pairs_tried s limit fired v }
{}
