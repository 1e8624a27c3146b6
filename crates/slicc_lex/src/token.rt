use slicc_ast::tree::{Span, TokenKind};

/// A token and where it stands.
#[derive(Drop)]
pub struct Token {
    pub kind: TokenKind,
    pub span: Span,
}
