ghost use Rattle.std.specs.Prelude.{◌≡◌};
ghost use Rattle.action_code.specs.Fits.{Fits};

use crate::program::Program;
use ruby_value::{Kind, NoMemory, Seq};
use std::marker::Model;

/// Why a program isn't verified.
#[derive(Drop)]
pub enum CodeFault {
    /// The first instruction that breaks a rule: the least rule that it breaks, 1 to 6; the body's number and the instruction's; and the
    /// kinds of the stack before it, from the bottom up. Where ways to it have different stacks or messages, these are those of the way
    /// from the least instruction.
    Broken {
        rule: u8,
        body: u32,
        at: u32,
        kept: Seq<Kind>,
    },
    /// There was no memory for the verification.
    NoMemory,
}

impl From<NoMemory> for CodeFault {
    ghost use Rattle.std.specs.Prelude.{◌≡◌};
    ghost use Rattle.action_code.specs.declared.verified.CodeFault.TheVariants.{NoMemory as NoRoom};

    ghost from_gives = { λ none fault. fault ≡ NoRoom };

    fn from(_none: NoMemory) -> CodeFault {
        CodeFault::NoMemory
    }
}

/// A program that was verified. A contract sees it as the program, and that it fits is known of each.
#[derive(Drop)]
pub struct Verified {
    program: Program,
}

impl Model for Verified {
    ghost use Rattle.action_code.specs.declared.program.Program.{Program};
    ghost use Rattle.action_code.specs.Fits.{Fits};

    ghost Value = { Program };

    ghost view = { λ v. v.program };

    ghost invariant = { λ v. Fits v.program };
}

impl Verified {
    /// A program that fits.
    pub(crate) fn of(program: Program) -> Verified
        requires { Fits program }
        ensures { result ≡ program }
    {
        Verified { program }
    }

    /// The program. It fits.
    pub fn program(&self) -> &Program
        ensures value { result.now ≡ self.now }
        ensures fits { Fits self.now }
    {
        &self.program
    }
}
