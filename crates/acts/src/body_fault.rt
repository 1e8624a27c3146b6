use ctl_face::{Fault, Text, Trouble};

/// A fault that a body gives by itself. All others come of its acts.
#[derive(Drop)]
pub enum BodyFault {
    /// A condition that the protocol asserts doesn't hold.
    Assert,
    /// The protocol ended itself by `error`, with this text.
    Error(Text),
    /// A sum, a difference, a product or a negation is outside signed 64 bits.
    Overflow,
    /// A field or a `setMRU` through a reference to nothing.
    Reference,
}

impl From<BodyFault> for Fault {
    ghost use Rattle.std.specs.Prelude.{◌≡◌};
    ghost use Rattle.acts.specs.Acting.{fault_of};

    ghost from_gives = { λ own fault. fault ≡ fault_of own };

    fn from(own: BodyFault) -> Fault {
        match own {
            BodyFault::Assert => Fault::Assert,
            BodyFault::Error(text) => Fault::Error(text),
            BodyFault::Overflow => Fault::Overflow,
            BodyFault::Reference => Fault::Reference,
        }
    }
}

impl From<BodyFault> for Trouble {
    ghost use Rattle.std.specs.Prelude.{◌≡◌};
    ghost use Rattle.ctl_face.specs.declared.trouble.Trouble.TheVariants as trouble;
    ghost use Rattle.acts.specs.Acting.{fault_of};

    ghost from_gives = { λ own it. it ≡ trouble.Fault (fault_of own) };

    fn from(own: BodyFault) -> Trouble {
        Trouble::Fault(Fault::from(own))
    }
}
