ghost use Rattle.std.specs.Prelude.{◌↔◌, IsTrue};
ghost use Rattle.ctl_face.specs.Prelude.{LocalView};
ghost use Rattle.acts.specs.Prelude.{Act, Required, serves};

/// A machine serves an act exactly where the call of a local by which it is done may be made. It does nothing.
pub fn what_is_served_is_what_a_local_requires()
    ensures { (v : LocalView) (a : Act) → IsTrue (serves v.machine a) ↔ Required v a }
{}
