use ruby_base::Seq;
use slicc_ast::tree::Span;

/// A part of a body: a statement, or an operator, name, literal, call, field or index of an expression. Parentheses are no part.
/// Functions and tables are numbered within their machine.
#[derive(Clone, Copy)]
pub enum Part {
    /// A call of the machine's function of this number.
    Call(u32),
    /// A `check_allocate` of the machine's table of this number.
    Check(u32),
    /// What changes more than a local, and where it is.
    Change(Span),
    /// Any other part.
    Plain,
}

/// A body by its parts: how many there are, and those that call, check or change something, in the order of the text.
#[derive(Drop)]
pub struct Body {
    /// The port, action or function whose body it is.
    pub place: Span,
    pub size: u64,
    /// The functions that are called, by their numbers.
    pub calls: Seq<u32>,
    /// The tables of which there is a `check_allocate`, by their numbers.
    pub checks: Seq<u32>,
    /// Where more than a local changes.
    pub changes: Seq<Span>,
}
