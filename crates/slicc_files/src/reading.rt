//! One file's bytes as its tree.
ghost use Rattle.std.specs.Prelude.{◌≡◌, ◌<◌, ◌≤◌, Ok, Some, length, IsSomeAnd, MatchResult};
ghost use Rattle.std.specs.List.{slice_get};
ghost use Rattle.slicc_parse.specs.Prelude.{AreEndedOnce};
ghost use Rattle.slicc_files.specs.Texts.{IsReadText, IsReadTokens, IsTextFault, IsTokensFault, broken_at, broken_by, code_of, fault_of};

use ruby_base::Seq;
use slicc_ast::tree::Tree;
use slicc_lex::{LexFault, Token, lex};
use slicc_parse::{SyntaxFault, parse};
use std::alloc::Global;

/// The rules of a text that is read: those of its tokens, and those of the grammar.
#[derive(Clone, Copy)]
pub enum TextRule {
    /// A byte begins no token, or may not be in its string.
    BadByte,
    /// A string isn't closed on its line.
    OpenString,
    /// A comment isn't closed.
    OpenComment,
    /// A number is above 2^63 - 1.
    NumberTooLarge,
    /// A name has more than 128 bytes.
    NameTooLong,
    /// No file goes on with a token.
    BadToken,
    /// A token opens a nesting above 64.
    DeepNesting,
}

/// A rule that is broken, and where: the offset of the byte from 0.
#[derive(Clone, Copy)]
pub struct Broken {
    pub rule: TextRule,
    pub offset: u32,
}

/// Why bytes are not read as a tree.
#[derive(Clone, Copy)]
pub enum TextFault {
    Broken(Broken),
    NoMemory,
}

/// The code of a rule, as in docs/LANGUAGE.md.
pub fn code(rule: TextRule) -> &'static str
    ensures { result.now ≡ code_of rule }
{
    match rule {
        TextRule::BadByte => "L1",
        TextRule::OpenString => "L2",
        TextRule::OpenComment => "L3",
        TextRule::NumberTooLarge => "L4",
        TextRule::NameTooLong => "L5",
        TextRule::BadToken => "P1",
        TextRule::DeepNesting => "P2",
    }
}

// What a fault of the lexer breaks.
fn lexical(fault: LexFault) -> TextFault
    ensures { result ≡ fault_of (broken_by fault) }
{
    let (rule, offset) = match fault {
        LexFault::BadByte(offset) => (TextRule::BadByte, offset),
        LexFault::OpenString(offset) => (TextRule::OpenString, offset),
        LexFault::OpenComment(offset) => (TextRule::OpenComment, offset),
        LexFault::NumberTooLarge(offset) => (TextRule::NumberTooLarge, offset),
        LexFault::NameTooLong(offset) => (TextRule::NameTooLong, offset),
        LexFault::NoMemory => return TextFault::NoMemory,
    };
    TextFault::Broken(Broken { rule, offset })
}

// A rule that the token at a place breaks.
fn broken_by_token(rule: TextRule, tokens: &Seq<Token>, place: u32) -> TextFault
    requires { place < length tokens.now }
    ensures { IsSomeAnd (slice_get tokens.now place)
        (λ token. result ≡ fault_of (Some (broken_at rule token.span.start))) }
{
    let offset = tokens[place as usize].span.start;
    TextFault::Broken(Broken { rule, offset })
}

// The tree that the tokens of a file spell.
fn read_tokens(alloc: Global, tokens: &Seq<Token>) -> Result<Tree, TextFault>
    requires size { length tokens.now ≤ 1048577 }
    requires ended { AreEndedOnce tokens.now }
    ensures { MatchResult result (λ t. IsReadTokens tokens.now (Ok t)) (IsTokensFault tokens.now) }
{
    match parse(alloc, tokens) {
        Ok(tree) => Ok(tree),
        Err(SyntaxFault::Syntax(place)) => {
            Err(broken_by_token(TextRule::BadToken, tokens, place))
        }
        Err(SyntaxFault::Deep(place)) => {
            Err(broken_by_token(TextRule::DeepNesting, tokens, place))
        }
        Err(SyntaxFault::NoMemory) => Err(TextFault::NoMemory),
    }
}

/// The tree of a file's bytes, or the first place where they break the language.
pub fn read_text(alloc: Global, file: u16, bytes: &[u8]) -> Result<Tree, TextFault>
    requires { length bytes.now ≤ 1048576 }
    ensures { MatchResult result
        (λ t. IsReadText file bytes.now (Ok t))
        (IsTextFault file bytes.now) }
{
    match lex(alloc, file, bytes) {
        Ok(tokens) => read_tokens(alloc, &tokens),
        Err(fault) => Err(lexical(fault)),
    }
}
