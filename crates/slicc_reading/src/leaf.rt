//! The parts that are one token.
ghost use Rattle.std.specs.Prelude.{◌≡◌, ◌∷◌, ◌<◌, [], IsTrue, false, IfErr, IfOk, MatchOption, MatchResult, length};
ghost use Rattle.slicc_ast.specs.Prelude.{nested, Row, has, is_ahead, refusal, last_end, node, none, openers, Form, names_of, string, type, table, kind_of, quoted, sign_kind, word_kind};
ghost use Rattle.slicc_ast.specs.Names.{sign as sign_of, word as word_of};
ghost use Rattle.slicc_ast.specs.Outline.{token};
ghost use Rattle.slicc_ast.specs.declared.tree.token.TokenKind.TheVariants.{Name as Named, Quoted, Sign as SignOf, Word as WordOf};
ghost use Rattle.slicc_ast.specs.Parts.{name, sign as sign_part, word as word_part};
ghost use Rattle.slicc_lex.specs.Prelude.{token_spans, symbols};
ghost use Rattle.slicc_reading.specs.Prelude.{AreRead, Covers, IsOpened, IsRead, IsStopOf, Refuses};

use crate::fault::{Fault, Read};
use slicc_ast::tree::{Name, Sign, Span, TokenKind, TypeName, Word};
use slicc_ast::{Seq, Text};
use slicc_lex::Token;
use std::alloc::Global;

/// The first token, and those behind it.
pub fn split_first(tokens: &[Token]) -> Option<(&Token, &[Token])>
    ensures { MatchOption result (tokens.now ≡ []) (λ split. tokens.now ≡ split.0.now ∷ split.1.now) }
{
    tokens.split_first()
}

fn is_sign_kind(kind: &TokenKind, sign: Sign) -> bool
    ensures value { result ≡ has (sign_kind sign ∷ []) (kind_of kind.now) }
    ensures same { IsTrue result → kind.now ≡ SignOf sign }
{
    match kind {
        TokenKind::Sign(found) => *found == sign,
        _ => false,
    }
}

fn is_word_kind(kind: &TokenKind, word: Word) -> bool
    ensures value { result ≡ has (word_kind word ∷ []) (kind_of kind.now) }
    ensures same { IsTrue result → kind.now ≡ WordOf word }
{
    match kind {
        TokenKind::Word(found) => *found == word,
        _ => false,
    }
}

/// Whether the first token is this sign.
pub fn is_sign(sign: Sign, tokens: &[Token]) -> bool
    ensures { result ≡ is_ahead (sign_kind sign ∷ []) (symbols tokens.now) }
{
    match split_first(tokens) {
        Some((first, _)) => is_sign_kind(&first.kind, sign),
        None => false,
    }
}

/// Whether the first token is this word.
pub fn is_word(word: Word, tokens: &[Token]) -> bool
    ensures { result ≡ is_ahead (word_kind word ∷ []) (symbols tokens.now) }
{
    match split_first(tokens) {
        Some((first, _)) => is_word_kind(&first.kind, word),
        None => false,
    }
}

fn is_name_kind(kind: &TokenKind) -> bool
    ensures { result ≡ has names_of (kind_of kind.now) }
{
    match kind {
        TokenKind::Name(_) => true,
        _ => false,
    }
}

/// Whether the first token is a name.
pub fn is_name(tokens: &[Token]) -> bool
    ensures { result ≡ is_ahead names_of (symbols tokens.now) }
{
    match split_first(tokens) {
        Some((first, _)) => is_name_kind(&first.kind),
        None => false,
    }
}

fn is_string_kind(kind: &TokenKind) -> bool
    ensures { result ≡ has (quoted ∷ []) (kind_of kind.now) }
{
    match kind {
        TokenKind::Quoted(_) => true,
        _ => false,
    }
}

/// Whether the first token is a string.
pub fn is_string(tokens: &[Token]) -> bool
    ensures { result ≡ is_ahead (quoted ∷ []) (symbols tokens.now) }
{
    match split_first(tokens) {
        Some((first, _)) => is_string_kind(&first.kind),
        None => false,
    }
}

/// Whether the first token opens a nesting wherever it stands.
fn opens(tokens: &[Token]) -> bool
    ensures { result ≡ is_ahead openers (symbols tokens.now) }
{
    is_sign(Sign::OpenBrace, tokens)
        || is_sign(Sign::OpenParenthesis, tokens)
        || is_sign(Sign::OpenBracket, tokens)
        || is_sign(Sign::Not, tokens)
}

/// The fault at the first token, where it isn't one that must come and `room` more nestings are allowed.
pub fn refuse(room: u32, tokens: &[Token]) -> Fault
    ensures { IsStopOf (refusal table room (symbols tokens.now)) result }
{
    if room > 0 {
        return Fault::Syntax(tokens.len());
    }
    if opens(tokens) {
        return Fault::Deep(tokens.len());
    }
    Fault::Syntax(tokens.len())
}

/// The tokens behind a sign.
pub fn sign(room: u32, sign: Sign, tokens: &[Token]) -> Result<&[Token], Fault>
    ensures read { MatchResult result
        (λ left. AreRead room (sign_part sign) (sign_of sign) tokens.now left.now)
        (Refuses room (sign_part sign) tokens.now) }
    ensures shorter { IfOk result (λ left. length left.now < length tokens.now) }
{
    match split_first(tokens) {
        Some((first, left)) => {
            if is_sign_kind(&first.kind, sign) {
                return Ok(left);
            }
            Err(refuse(room, tokens))
        }
        None => Err(refuse(room, tokens)),
    }
}

/// The tokens behind a reserved word.
pub fn word(room: u32, word: Word, tokens: &[Token]) -> Result<&[Token], Fault>
    ensures read { MatchResult result
        (λ left. AreRead room (word_part word) (word_of word) tokens.now left.now)
        (Refuses room (word_part word) tokens.now) }
    ensures shorter { IfOk result (λ left. length left.now < length tokens.now) }
{
    match split_first(tokens) {
        Some((first, left)) => {
            if is_word_kind(&first.kind, word) {
                return Ok(left);
            }
            Err(refuse(room, tokens))
        }
        None => Err(refuse(room, tokens)),
    }
}

/// The tokens behind a sign that opens a nesting.
pub fn open(room: u32, opener: Sign, tokens: &[Token]) -> Result<&[Token], Fault>
    ensures opened { IfOk result (λ left. IsOpened room opener tokens.now left.now) }
    ensures refused { IfErr result (λ fault. (part : Row Form) → Refuses room (nested (sign_kind opener ∷ []) part) tokens.now fault) }
    ensures shorter { IfOk result (λ left. length left.now < length tokens.now) }
{
    match split_first(tokens) {
        Some((first, left)) => {
            if !is_sign_kind(&first.kind, opener) {
                return Err(refuse(room, tokens));
            }
            if room == 0 {
                return Err(Fault::Deep(tokens.len()));
            }
            Ok(left)
        }
        None => Err(refuse(room, tokens)),
    }
}

/// The text and the place of a name.
fn name_text(alloc: Global, room: u32, tokens: &[Token]) -> Result<(Text, Span, &[Token]), Fault>
    ensures read { MatchResult result
        (λ read. IsRead room name (node read.1 (token (Named read.0) none)) tokens.now tokens.now read.2.now)
        (Refuses room name tokens.now) }
    ensures shorter { IfOk result (λ read. length read.2.now < length tokens.now) }
{
    let Some((first, left)) = split_first(tokens) else {
        return Err(refuse(room, tokens));
    };
    match name_of(&first.kind) {
        Some(text) => match Seq::copied(alloc, text) {
            Ok(text) => Ok((text, first.span, left)),
            Err(_) => Err(Fault::NoMemory),
        },
        None => Err(refuse(room, tokens)),
    }
}

/// A name.
pub fn name(alloc: Global, room: u32, tokens: &[Token]) -> Read<Name>
    ensures read { MatchResult result
        (λ read. IsRead room name (node read.0.span (token (Named read.0.text) none)) tokens.now tokens.now read.1.now)
        (Refuses room name tokens.now) }
    ensures shorter { IfOk result (λ read. length read.1.now < length tokens.now) }
{
    match name_text(alloc, room, tokens) {
        Ok((text, span, left)) => Ok((Name { text, span }, left)),
        Err(fault) => Err(fault),
    }
}

/// The name of a type.
pub fn type_name(alloc: Global, room: u32, tokens: &[Token]) -> Read<TypeName>
    ensures read { MatchResult result
        (λ read. IsRead room type (node read.0.span (token (Named read.0.text) none)) tokens.now tokens.now read.1.now)
        (Refuses room type tokens.now) }
    ensures shorter { IfOk result (λ read. length read.1.now < length tokens.now) }
{
    match name_text(alloc, room, tokens) {
        Ok((text, span, left)) => Ok((TypeName { text, span }, left)),
        Err(fault) => Err(fault),
    }
}

fn name_of(kind: &TokenKind) -> Option<&[u8]>
    ensures { MatchOption result (has names_of (kind_of kind.now) ≡ false) (λ text. kind.now ≡ Named text.now) }
{
    match kind {
        TokenKind::Name(text) => Some(text.as_slice()),
        _ => None,
    }
}

fn string_of(kind: &TokenKind) -> Option<&[u8]>
    ensures { MatchOption result (has (quoted ∷ []) (kind_of kind.now) ≡ false) (λ text. kind.now ≡ Quoted text.now) }
{
    match kind {
        TokenKind::Quoted(text) => Some(text.as_slice()),
        _ => None,
    }
}

/// The text of a string.
pub fn string(alloc: Global, room: u32, tokens: &[Token]) -> Read<Text>
    ensures read { MatchResult result
        (λ read. AreRead room string (token (Quoted read.0)) tokens.now read.1.now)
        (Refuses room string tokens.now) }
    ensures shorter { IfOk result (λ read. length read.1.now < length tokens.now) }
{
    let Some((first, left)) = split_first(tokens) else {
        return Err(refuse(room, tokens));
    };
    match string_of(&first.kind) {
        Some(text) => match Seq::copied(alloc, text) {
            Ok(text) => Ok((text, left)),
            Err(_) => Err(Fault::NoMemory),
        },
        None => Err(refuse(room, tokens)),
    }
}

fn end_of(first: &Token, others: &[Token]) -> u32
    ensures { result ≡ last_end first.now.span (token_spans others.now) }
{
    match others.last() {
        Some(last) => last.span.end,
        None => first.span.end,
    }
}

/// What the tokens up to those that are left cover.
pub fn span(tokens: &[Token], left: &[Token]) -> Span
    ensures { Covers result tokens.now left.now }
{
    let (own, _) = tokens.split_at(tokens.len().saturating_sub(left.len()));
    match split_first(own) {
        Some((first, others)) => Span {
            file: first.span.file,
            start: first.span.start,
            end: end_of(first, others),
        },
        None => Span {
            file: 0,
            start: 0,
            end: 0,
        },
    }
}
