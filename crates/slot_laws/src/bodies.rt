// What bodies do to slots and credits.
ghost use Rattle.std.specs.Prelude.{ℕ};
ghost use Rattle.ruby_value.specs.declared.setup.MachineSetup.{MachineSetup};
ghost use Rattle.ctl_face.specs.Prelude.{Actor, Ctl, IsLawful, LocalView, scan_view};
ghost use Rattle.acts.specs.Prelude.{Acting, run, HoldsAfter};
ghost use Rattle.slot_laws.specs.Prelude.{HasSlotted};

/// What a scan has done to slots and credits, from the mail that it began with, as it begins and after each body: each copy that it has
/// sent to a buffer with a size has taken one slot there, and each message that it has consumed from one, and that a controller had sent,
/// has become one credit for that controller. What becomes of slots between controllers is no matter of a body.
pub fn bodies_move_slots<A>()
    ensures begins { (machine : MachineSetup) (actor : Actor) (now : ℕ) (ctl : Ctl) → HasSlotted
        (scan_view machine actor now ctl) }
    ensures kept { (p : Acting A) (v : LocalView) → IsLawful v → HasSlotted v → HoldsAfter
        HasSlotted
        (run p v) }
{}
