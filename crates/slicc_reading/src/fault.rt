//! What is read, or why nothing is, and from tokens that are left to places in a text's list of tokens.
ghost use Rattle.std.specs.Prelude.{◌≡◌, ◌-◌, ◌≤◌};
ghost use Rattle.slicc_lex.specs.Prelude.{nesting_limit};
ghost use Rattle.slicc_reading.specs.Prelude.{placed};

use ruby_base::NoMemory;
use slicc_lex::Token;
use std::alloc::AllocFailed;

/// Why tokens are not read as a form. The number is how many tokens are left, the one that is meant among them.
#[derive(Clone, Copy, Debug)]
pub enum Fault {
    /// The first token with which no form begins so.
    Syntax(usize),
    /// The first token that opens a nesting above the limit.
    Deep(usize),
    NoMemory,
}

/// What is read from the front of tokens, and the tokens that are left behind it.
pub type Read<'t, T> = Result<(T, &'t [Token]), Fault>;

impl From<NoMemory> for Fault {
    fn from(_: NoMemory) -> Fault {
        Fault::NoMemory
    }
}

impl<T: Drop> From<AllocFailed<T>> for Fault {
    fn from(_: AllocFailed<T>) -> Fault {
        Fault::NoMemory
    }
}

/// Why tokens are not read as an expression or a block: the place of a token, from 0.
#[derive(Clone, Copy, Debug)]
pub enum SyntaxFault {
    /// The first token with which no form begins so.
    Syntax(u32),
    /// The first token that opens a nesting above 64.
    Deep(u32),
    NoMemory,
}

/// How many nestings may be open.
const NESTING_LIMIT: u32 = 64;

/// How many more nestings may be opened where so many are open.
pub fn room_within(depth: u32) -> u32
    requires { depth ≤ 64 }
    ensures { result ≡ nesting_limit - depth }
{
    NESTING_LIMIT - depth
}

/// The place of the first of the tokens that are left, of so many in all.
pub fn place(count: usize, left: usize) -> u32
    requires { count ≤ 1048577 }
    ensures { result ≡ count - left }
{
    count.saturating_sub(left) as u32
}

/// A fault by the place of its token.
pub fn placed(count: usize, fault: Fault) -> SyntaxFault
    requires { count ≤ 1048577 }
    ensures { result ≡ placed count fault }
{
    match fault {
        Fault::Syntax(left) => SyntaxFault::Syntax(place(count, left)),
        Fault::Deep(left) => SyntaxFault::Deep(place(count, left)),
        Fault::NoMemory => SyntaxFault::NoMemory,
    }
}
