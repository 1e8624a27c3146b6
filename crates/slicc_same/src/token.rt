//! Tokens and names.
ghost use Rattle.std.specs.Prelude.{◌≡◌, ◌==◌};
ghost use Rattle.std.specs.Str.{bytes_eq};
ghost use Rattle.slicc_same.specs.Prelude.{alike_kind, sign_number, word_number};

use slicc_ast::Text;
use slicc_ast::tree::{Name, Sign, TokenKind, TypeName, Word};

pub fn same_text(a: &Text, b: &Text) -> bool
    ensures { result ≡ bytes_eq a.now b.now }
{
    a.as_slice() == b.as_slice()
}

pub fn same_word(a: Word, b: Word) -> bool
    ensures { result ≡ (word_number a == word_number b) }
{
    a == b
}

pub fn same_sign(a: Sign, b: Sign) -> bool
    ensures { result ≡ (sign_number a == sign_number b) }
{
    a == b
}

pub fn same_kind(a: &TokenKind, b: &TokenKind) -> bool
    ensures { result ≡ alike_kind a.now b.now }
{
    match (a, b) {
        (TokenKind::Name(a), TokenKind::Name(b)) => same_text(a, b),
        (TokenKind::Number(a), TokenKind::Number(b)) => *a == *b,
        (TokenKind::Quoted(a), TokenKind::Quoted(b)) => same_text(a, b),
        (TokenKind::Word(a), TokenKind::Word(b)) => same_word(*a, *b),
        (TokenKind::Sign(a), TokenKind::Sign(b)) => same_sign(*a, *b),
        (TokenKind::End, TokenKind::End) => true,
        _ => false,
    }
}

pub fn same_name(a: &Name, b: &Name) -> bool
    ensures { result ≡ bytes_eq a.now.text b.now.text }
{
    same_text(&a.text, &b.text)
}

pub fn same_type(a: &TypeName, b: &TypeName) -> bool
    ensures { result ≡ bytes_eq a.now.text b.now.text }
{
    same_text(&a.text, &b.text)
}
