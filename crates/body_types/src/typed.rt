use crate::meaning::{Meaning, Written};
use slicc_ast::tree::Span;
use slicc_plan::Broken;

/// What an expression is in a body.
#[derive(Clone, Copy)]
pub struct Typed<'a> {
    pub meaning: Meaning<'a>,
    pub written: Written,
    /// The first that is broken in it.
    pub broken: Option<Broken>,
}

/// An argument and its place.
#[derive(Clone, Copy)]
pub struct Given<'a> {
    pub place: Span,
    pub typed: Typed<'a>,
}
