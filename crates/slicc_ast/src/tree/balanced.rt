use crate::tree::{Span, TokenKind};
use ruby_base::Seq;

/// Any tokens in which parentheses, brackets and braces close in pairs. Nothing else is known of them.
#[cycle(balanced)]
pub struct Balanced {
    pub parts: Seq<Part>,
    pub span: Span,
}

impl Drop for Balanced {
    #[cycle(balanced_drop)]
    fn drop(self) {
        let Balanced { parts: _, span: _ } = self;
    }
}

/// A token of a balanced part, or a pair of brackets with what stands between them.
#[cycle(balanced)]
pub enum Part {
    /// Any token but a bracket of one of the three kinds and the end of the text.
    Token(TokenKind),
    Parentheses(Balanced),
    Brackets(Balanced),
    Braces(Balanced),
}

impl Drop for Part {
    #[cycle(balanced_drop)]
    fn drop(self) {
        match self {
            Part::Token(_) => {}
            Part::Parentheses(_) => {}
            Part::Brackets(_) => {}
            Part::Braces(_) => {}
        }
    }
}
