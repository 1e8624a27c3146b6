// Tokens of texts, and places in them.
use example_texts::RowText;
use slicc_ast::tree::Span;
use slicc_lex::{Sign, Token, TokenKind, Word, place_of};

/// Adds the file, the start and the end of a span.
pub(crate) fn add_span(rows: &mut RowText, span: &Span) {
    rows.show("", &span.file);
    rows.show(":", &span.start);
    rows.show("-", &span.end);
}

fn sign_text(sign: Sign) -> &'static str {
    match sign {
        Sign::OpenBrace => "{",
        Sign::CloseBrace => "}",
        Sign::OpenParenthesis => "(",
        Sign::CloseParenthesis => ")",
        Sign::OpenBracket => "[",
        Sign::CloseBracket => "]",
        Sign::Semicolon => ";",
        Sign::Colon => ":",
        Sign::Comma => ",",
        Sign::Dot => ".",
        Sign::Equals => "=",
        Sign::Assign => ":=",
        Sign::Equal => "==",
        Sign::Unequal => "!=",
        Sign::Less => "<",
        Sign::Greater => ">",
        Sign::LessOrEqual => "<=",
        Sign::GreaterOrEqual => ">=",
        Sign::Plus => "+",
        Sign::Minus => "-",
        Sign::Star => "*",
        Sign::Not => "!",
        Sign::And => "&&",
        Sign::Or => "||",
    }
}

// The text of a reserved word, of those that the rows have.
fn word_text(word: Word) -> &'static str {
    match word {
        Word::If => "if",
        Word::Ood => "OOD",
        Word::StateDeclaration => "state_declaration",
        Word::AppendTransitionComment => "APPEND_TRANSITION_COMMENT",
        _ => "another",
    }
}

fn add_kind(rows: &mut RowText, kind: &TokenKind) {
    match kind {
        TokenKind::Name(name) => {
            rows.add(" name ");
            rows.add_bytes(name);
        }
        TokenKind::Number(n) => rows.show(" number ", n),
        TokenKind::Quoted(string) => {
            rows.add(" string ");
            rows.add_bytes(string);
        }
        TokenKind::Word(word) => rows.show(" word ", &word_text(*word)),
        TokenKind::Sign(sign) => rows.show(" sign ", &sign_text(*sign)),
        TokenKind::End => rows.add(" end"),
    }
}

/// Adds how many tokens there are, and of one of them, counted from 0, its place and what it is.
pub(crate) fn add_token(rows: &mut RowText, at: u32, tokens: &[Token]) {
    match tokens.get(at as usize) {
        Some(token) => {
            rows.show("", &tokens.len());
            rows.add(" ");
            add_span(rows, &token.span);
            add_kind(rows, &token.kind);
        }
        None => rows.lose(),
    }
}

/// Adds the line and the column of an offset in a text.
pub(crate) fn add_place(rows: &mut RowText, offset: u32, text: &[u8]) {
    if text.len() > 1_048_576 || offset as usize > text.len() {
        return rows.lose();
    }
    let place = place_of(text, offset);
    rows.show("", &place.line);
    rows.show(" ", &place.column);
}
