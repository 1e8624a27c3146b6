ghost use Rattle.std.specs.Prelude.{◌≡◌};

use ruby_value::{Fault, NoMemory};

/// Why an act of a controller wasn't done.
#[derive(Drop)]
pub enum Trouble {
    /// The protocol's own fault, at which its scan ends.
    Fault(Fault),
    /// There was no memory for it.
    NoMemory,
}

impl From<NoMemory> for Trouble {
    ghost use Rattle.ctl_face.specs.declared.trouble.Trouble.{Trouble};

    ghost from_gives = { λ _ trouble. trouble ≡ Trouble.NoMemory };

    fn from(_none: NoMemory) -> Trouble {
        Trouble::NoMemory
    }
}

impl From<Fault> for Trouble {
    ghost use Rattle.ctl_face.specs.declared.trouble.Trouble.{Trouble};

    ghost from_gives = { λ fault trouble. trouble ≡ Trouble.Fault fault };

    fn from(fault: Fault) -> Trouble {
        Trouble::Fault(fault)
    }
}
