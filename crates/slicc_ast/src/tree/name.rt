use crate::tree::Span;
use ruby_base::Text;

/// A name where it is written.
#[derive(Drop)]
pub struct Name {
    pub text: Text,
    pub span: Span,
}

/// The name of a type.
#[derive(Drop)]
pub struct TypeName {
    pub text: Text,
    pub span: Span,
}
