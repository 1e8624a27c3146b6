ghost use Rattle.std.specs.Prelude.{◌≡◌, IfOk};
ghost use Rattle.action_code.specs.Shapes.{empty_shape, same_shape};

use crate::stack::{Stack, have_same_kinds, have_same_numbers};
use ruby_base::NoMemory;
use ruby_value::Kind;
use std::alloc::Global;

/// What is known of a run before an instruction: the kinds on the stack, and the types of the open messages.
#[derive(Drop)]
pub struct Shape {
    pub stack: Stack<Kind>,
    /// Of the inner messages, the one that was opened last on top.
    pub inner: Stack<u16>,
    /// Of the out messages, likewise.
    pub made: Stack<u16>,
}

impl Shape {
    /// As a body begins. It takes no memory.
    pub fn empty(alloc: Global) -> Shape
        ensures { result ≡ empty_shape }
    {
        Shape {
            stack: Stack::new(alloc),
            inner: Stack::new(alloc),
            made: Stack::new(alloc),
        }
    }

    /// Whether the two have the same kinds and messages.
    pub fn is_same(&self, other: &Shape) -> bool
        ensures { result ≡ same_shape self.now other.now }
    {
        have_same_kinds(&self.stack, &other.stack)
            && have_same_numbers(&self.inner, &other.inner)
            && have_same_numbers(&self.made, &other.made)
    }

    /// A shape of its own with the same kinds and messages.
    pub fn copied(alloc: Global, shape: &Shape) -> Result<Shape, NoMemory>
        ensures { IfOk result (λ s. s ≡ shape.now) }
    {
        Ok(Shape {
            stack: Stack::copied(alloc, &shape.stack)?,
            inner: Stack::copied(alloc, &shape.inner)?,
            made: Stack::copied(alloc, &shape.made)?,
        })
    }
}
