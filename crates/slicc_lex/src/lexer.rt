ghost use Rattle.std.specs.Prelude.{◌≡◌, ◌⊎◌, ◌≤◌, ◌++◌, length, Ok, Err, OnOk, MatchResult};
ghost use Rattle.slicc_lex.specs.declared.fault.LexFault.TheVariants.{NoMemory as OutOfMemory};
ghost use Rattle.slicc_lex.specs.Prelude.{Reads, tokens_of};

use crate::front::front;
use crate::piece::Piece;
use crate::{LexFault, NoMemory, Seq, Span, Token, TokenKind};
use std::alloc::Global;

/// Adds the token that a piece is, if it is one.
fn add(
    tokens: &mut Seq<Token>,
    file: u16,
    start: u32,
    end: u32,
    piece: Piece,
) -> Result<(), NoMemory>
    ensures { OnOk result (tokens.new ≡ tokens.old ++ tokens_of file start end piece) }
{
    match piece {
        Piece::Gap => Ok(()),
        Piece::Lexeme(kind) => tokens.push(Token {
            kind,
            span: Span { file, start, end },
        }),
    }
}

/// The tokens of a file's bytes, of which the last is the end token, or the first fault in them. The room for them is
/// taken at the start, one for each byte and for the end.
pub fn lex(alloc: Global, file: u16, bytes: &[u8]) -> Result<Seq<Token>, LexFault>
    requires { length bytes.now ≤ 1048576 }
    ensures { MatchResult result
        (λ tokens. Reads file 0 bytes.now (Ok tokens))
        (λ fault. (fault ≡ OutOfMemory) ⊎ Reads file 0 bytes.now (Err fault)) }
{
    let mut tokens = match Vec::with_capacity(alloc, bytes.len() + 1) {
        Ok(room) => Seq::of(room),
        Err(_) => return Err(LexFault::NoMemory),
    };
    let mut at: u32 = 0;
    let mut rest = bytes;
    while !rest.is_empty() {
        let (piece, size) = match front(alloc, at, rest) {
            Ok(found) => found,
            Err(fault) => return Err(fault),
        };
        let end = at + size as u32;
        let Ok(()) = add(&mut tokens, file, at, end, piece) else {
            return Err(LexFault::NoMemory);
        };
        let (_, behind) = rest.split_at(size);
        at = end;
        rest = behind;
    }
    let Ok(()) = add(&mut tokens, file, at, at, Piece::Lexeme(TokenKind::End)) else {
        return Err(LexFault::NoMemory);
    };
    Ok(tokens)
}
