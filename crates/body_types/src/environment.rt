use crate::lines::Lines;
use crate::meaning::Meaning;
use declared_types::Scopes;

/// The sorts of bodies.
#[derive(Clone, Copy)]
pub enum BodySort {
    Port,
    Action,
    Function,
}

/// A name of a value that a body has of its own.
#[derive(Clone, Copy)]
pub struct Bound<'a> {
    pub name: &'a [u8],
    pub meaning: Meaning<'a>,
    pub is_local: bool,
}

/// What names stand for at a place of a body.
#[derive(Clone, Copy)]
pub struct Environment<'b, 'a> {
    pub scopes: &'b Scopes<'a>,
    /// The number of the machine's scope.
    pub scope: usize,
    pub lines: Lines<'a>,
    pub sort: BodySort,
    /// What `return` gives.
    pub answer: Meaning<'a>,
    /// The names of the body, the outermost first.
    pub bound: &'b [Bound<'a>],
}
