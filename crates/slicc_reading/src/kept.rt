//! What many forms begin with or go on with: a sign and a name, and a reserved word with a parenthesis that opens behind it. And
//! what was read is kept while more is read behind it: these say what that makes of any part, so a reader that goes on behind a
//! value of its own hands it over, and lets go of nothing itself where a fault comes later.
ghost use Rattle.std.specs.Prelude.{◌≡◌, ◌∷◌, ◌++◌, ◌-◌, ◌<◌, ◌≤◌, [], ℕ, List, IfErr, IfOk, MatchResult, Ok, length};
ghost use Rattle.slicc_ast.specs.Names.{name as name_of, sign as sign_of};
ghost use Rattle.slicc_ast.specs.declared.tree.token.Sign.TheVariants.{OpenParenthesis};
ghost use Rattle.slicc_ast.specs.declared.tree.token.Word.{Word};
ghost use Rattle.slicc_ast.specs.Prelude.{nested, Row, Form, Parts, ◌▸◌, parentheses, semicolon, sign_kind};
ghost use Rattle.slicc_ast.specs.Parts.{Part, name as name_part, sign as sign_part, word};
ghost use Rattle.slicc_lex.specs.declared.token.Token.{Token};
ghost use Rattle.slicc_reading.specs.Prelude.{AreRead, IsCalled, Refuses, call_parts};

use crate::fault::{Fault, Read};
use crate::leaf::{name, open, sign, word};
use slicc_ast::Seq;
use slicc_ast::tree::{Name, Sign, Word};
use slicc_lex::Token;
use std::alloc::Global;

/// A sign and a name.
pub fn name_after(alloc: Global, room: u32, before: Sign, tokens: &[Token]) -> Read<Name>
    ensures read { MatchResult result
        (λ read. AreRead room (sign_part before ▸ name_part) (λ others. sign_of before (name_of read.0 others)) tokens.now read.1.now)
        (Refuses room (sign_part before ▸ name_part) tokens.now) }
    ensures shorter { IfOk result (λ read. length read.1.now < length tokens.now) }
{
    match sign(room, before, tokens) {
        Ok(behind) => name(alloc, room, behind),
        Err(fault) => Err(fault),
    }
}

/// The tokens behind a reserved word and the parenthesis that opens behind it.
pub fn called(room: u32, head: Word, tokens: &[Token]) -> Result<&[Token], Fault>
    ensures called { IfOk result (λ inside. IsCalled room head tokens.now inside.now) }
    ensures refused { IfErr result (λ fault. (inside : Row Form)
        → Refuses room (word head ▸ nested (sign_kind OpenParenthesis ∷ []) inside) tokens.now fault) }
    ensures shorter { IfOk result (λ inside. length inside.now < length tokens.now) }
{
    match word(room, head, tokens) {
        Ok(behind) => open(room, Sign::OpenParenthesis, behind),
        Err(fault) => Err(fault),
    }
}

/// What was read, where this sign is behind it.
pub fn ended<'t, T: Drop>(room: u32, read: Read<'t, T>, closer: Sign) -> Read<'t, T>
    ensures read { (part : Part) (parts : T → Parts → Parts) (start : List Token)
        → MatchResult read.entry (λ r. AreRead room part (parts r.0) start r.1.now) (Refuses room part start)
        → MatchResult result
        (λ r. AreRead room (part ▸ sign_part closer) (λ others. parts r.0 (sign_of closer others)) start r.1.now)
        (Refuses room (part ▸ sign_part closer) start) }
    ensures shorter { (size : ℕ) → IfOk read.entry (λ r. length r.1.now ≤ size) → IfOk result (λ r. length r.1.now < size) }
{
    match read {
        Ok((value, behind)) => match sign(room, closer, behind) {
            Ok(left) => Ok((value, left)),
            Err(fault) => Err(fault),
        },
        Err(fault) => Err(fault),
    }
}

/// A value that was read, with what was read behind it.
pub fn joined<'t, A: Drop, B>(first: A, read: Read<'t, B>) -> Read<'t, (A, B)>
    ensures read { (room : ℕ) (part later : Part) (parts : A → Parts → Parts) (more : B → Parts → Parts) (start between : List Token)
        → AreRead room part (parts first) start between
        → MatchResult read.entry (λ r. AreRead room later (more r.0) between r.1.now) (Refuses room later between)
        → MatchResult result
        (λ r. AreRead room (part ▸ later) (λ others. parts r.0.0 (more r.0.1 others)) start r.1.now)
        (Refuses room (part ▸ later) start) }
    ensures shorter { (size : ℕ) → IfOk read.entry (λ r. length r.1.now < size) → IfOk result (λ r. length r.1.now < size) }
{
    match read {
        Ok((second, left)) => Ok(((first, second), left)),
        Err(fault) => Err(fault),
    }
}

/// Adds what was read to a list, and says what is left behind it.
pub fn added<'t, T: Drop>(items: &mut Seq<T>, read: Read<'t, T>) -> Result<&'t [Token], Fault>
    ensures added { IfOk result (λ left. (item : T) × (items.new ≡ items.old ++ item ∷ []) × (read.entry ≡ Ok (item, left))) }
    ensures refused { (room : ℕ) (part : Part) (start : List Token)
        → IfErr read.entry (Refuses room part start) → IfErr result (Refuses room part start) }
{
    match read {
        Ok((item, left)) => match items.push(item) {
            Ok(()) => Ok(left),
            Err(_) => Err(Fault::NoMemory),
        },
        Err(fault) => Err(fault),
    }
}

/// What was read behind a word and the parenthesis that opens behind it, where the parenthesis closes and `;` is behind that.
pub fn ended_call<'t, T: Drop>(room: u32, read: Read<'t, T>) -> Read<'t, T>
    requires { 0 < room }
    ensures read { (head : Word) (part : Part) (parts : T → Parts → Parts) (start inside : List Token)
        → IsCalled room head start inside
        → MatchResult read.entry (λ r. AreRead (room - 1) part (parts r.0) inside r.1.now) (Refuses (room - 1) part inside)
        → MatchResult result
        (λ r. AreRead room (word head ▸ parentheses part ▸ semicolon) (call_parts head (parts r.0)) start r.1.now)
        (Refuses room (word head ▸ parentheses part ▸ semicolon) start) }
    ensures shorter { (size : ℕ) → IfOk read.entry (λ r. length r.1.now ≤ size) → IfOk result (λ r. length r.1.now < size) }
{
    let closed = ended(room - 1, read, Sign::CloseParenthesis);
    ended(room, closed, Sign::Semicolon)
}
