ghost use Rattle.std.specs.Prelude.{◌≡◌, ◌+◌, ◌^◌, ◌<◌, ◌≤◌, ◌∷◌, [], length, MatchOption};
ghost use Rattle.slicc_lex.specs.declared.class.Class.TheVariants.{Letter, Digit, Quote, Slash, Other};
ghost use Rattle.slicc_lex.specs.Prelude.{BeginsWith, class_of, Finds, hexadecimal_size, pair_front};

use crate::bytes::{digit_len, hexadecimal_len, inside_len, line_len, printable_len, word_len};
use crate::class::{Class, class_of};
use crate::comment::close_len;
use crate::number::number_of;
use crate::piece::Piece;
use crate::sign::{pair_sign, single_sign};
use crate::word::reserved;
use crate::{LexFault, Seq, Sign, TokenKind};
use std::alloc::Global;

/// The longest name, in bytes.
const LONGEST_NAME: usize = 128;

/// The first byte, and those behind it.
fn split_front(bytes: &[u8]) -> Option<(&u8, &[u8])>
    ensures { MatchOption result (bytes.now ≡ []) (λ split. bytes.now ≡ split.0.now ∷ split.1.now) }
{
    bytes.split_first()
}

/// The name or the reserved word at the front.
fn word(alloc: Global, at: u32, bytes: &[u8]) -> Result<(Piece, usize), LexFault>
    requires { BeginsWith Letter bytes.now }
    ensures { Finds at bytes.now result }
{
    let size = word_len(bytes);
    let (text, _) = bytes.split_at(size);
    if let Some(word) = reserved(text) {
        return Ok((Piece::Lexeme(TokenKind::Word(word)), size));
    }
    if size > LONGEST_NAME {
        return Err(LexFault::NameTooLong(at));
    }
    match Seq::copied(alloc, text) {
        Ok(name) => Ok((Piece::Lexeme(TokenKind::Name(name)), size)),
        Err(_) => Err(LexFault::NoMemory),
    }
}

/// How many hexadecimal digits follow `0x` at the front.
fn hexadecimal_size(bytes: &[u8]) -> usize
    ensures { result ≡ hexadecimal_size bytes.now }
{
    match bytes {
        [b'0', b'x', digits @ ..] => hexadecimal_len(digits),
        _ => 0,
    }
}

/// The number at the front.
fn number(at: u32, bytes: &[u8]) -> Result<(Piece, usize), LexFault>
    requires { BeginsWith Digit bytes.now }
    ensures { Finds at bytes.now result }
{
    let hexadecimal = hexadecimal_size(bytes);
    if hexadecimal > 0 {
        let (_, behind) = bytes.split_at(2);
        let (digits, _) = behind.split_at(hexadecimal);
        return match number_of(16, digits) {
            Some(n) => Ok((Piece::Lexeme(TokenKind::Number(n)), 2 + hexadecimal)),
            None => Err(LexFault::NumberTooLarge(at)),
        };
    }
    let size = digit_len(bytes);
    let (digits, _) = bytes.split_at(size);
    match number_of(10, digits) {
        Some(n) => Ok((Piece::Lexeme(TokenKind::Number(n)), size)),
        None => Err(LexFault::NumberTooLarge(at)),
    }
}

/// The string at the front, whose first quote is `quote` and has the other bytes behind it.
fn string(alloc: Global, at: u32, quote: u8, behind: &[u8]) -> Result<(Piece, usize), LexFault>
    requires quote { class_of quote ≡ Quote }
    requires size { at + length behind.now ≤ 1048576 }
    ensures { Finds at (quote ∷ behind.now) result }
{
    let (text, ahead) = behind.split_at(inside_len(quote, behind));
    let Some((close, _)) = split_front(ahead) else {
        return Err(LexFault::OpenString(at));
    };
    if *close != quote {
        return Err(LexFault::OpenString(at));
    }
    let printable = printable_len(text);
    if printable < text.len() {
        return Err(LexFault::BadByte(at + 1 + printable as u32));
    }
    match Seq::copied(alloc, text) {
        Ok(copy) => Ok((Piece::Lexeme(TokenKind::Quoted(copy)), text.len() + 2)),
        Err(_) => Err(LexFault::NoMemory),
    }
}

/// The comment at the front, whose slash has the other bytes behind it.
fn comment(at: u32, behind: &[u8]) -> Result<(Piece, usize), LexFault>
    requires { at + length behind.now ≤ 1048576 }
    ensures { Finds at (47 ∷ behind.now) result }
{
    let Some((second, text)) = split_front(behind) else {
        return Err(LexFault::BadByte(at));
    };
    if *second == b'/' {
        return Ok((Piece::Gap, 2 + line_len(text)));
    }
    if *second != b'*' {
        return Err(LexFault::BadByte(at));
    }
    match close_len(text) {
        Some(size) => Ok((Piece::Gap, 2 + size)),
        None => Err(LexFault::OpenComment(at)),
    }
}

/// The sign of the first byte and the one behind it.
fn pair_front(first: u8, behind: &[u8]) -> Option<Sign>
    ensures { result ≡ pair_front first behind.now }
{
    match behind {
        [second, ..] => pair_sign(first, *second),
        [] => None,
    }
}

/// The sign at the front, if there is one, whose first byte has the other bytes behind it.
fn sign(at: u32, first: u8, behind: &[u8]) -> Result<(Piece, usize), LexFault>
    requires { class_of first ≡ Other }
    ensures { Finds at (first ∷ behind.now) result }
{
    if let Some(sign) = pair_front(first, behind) {
        return Ok((Piece::Lexeme(TokenKind::Sign(sign)), 2));
    }
    match single_sign(first) {
        Some(sign) => Ok((Piece::Lexeme(TokenKind::Sign(sign)), 1)),
        None => Err(LexFault::BadByte(at)),
    }
}

/// The piece at the front and how many bytes it has, or its fault, where the first byte's place is `at` and has the
/// other bytes behind it.
pub fn front(alloc: Global, at: u32, bytes: &[u8]) -> Result<(Piece, usize), LexFault>
    requires some { 1 ≤ length bytes.now }
    requires size { at + length bytes.now ≤ 1048576 }
    ensures { Finds at bytes.now result }
{
    let Some((first, behind)) = split_front(bytes) else {
        unreachable!();
    };
    match class_of(*first) {
        Class::Blank => Ok((Piece::Gap, 1)),
        Class::Letter => word(alloc, at, bytes),
        Class::Digit => number(at, bytes),
        Class::Quote => string(alloc, at, *first, behind),
        Class::Slash => comment(at, behind),
        Class::Other => sign(at, *first, behind),
    }
}
