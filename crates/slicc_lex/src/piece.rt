use crate::TokenKind;

/// What a text is made of.
#[derive(Drop)]
pub enum Piece {
    /// A blank or a comment.
    Gap,
    Lexeme(TokenKind),
}
