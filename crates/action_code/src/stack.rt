ghost use Rattle.std.specs.Prelude.{◌≡◌, ◌∷◌, [], length, slice_get, drop, reverse, bytes_eq, IfOk, OnOk};
ghost use Rattle.ruby_value.specs.Prelude.{same_kinds};

use ruby_base::NoMemory;
use ruby_value::{Kind, are_same_kinds};
use std::alloc::Global;
use std::marker::Model;

/// A stack. Contracts see it as the list of its elements from the top down.
#[derive(Drop)]
pub struct Stack<T> {
    items: Vec<T>,
}

impl<T> Model for Stack<T> {
    ghost use Rattle.std.specs.Prelude.{List, reverse};

    ghost Value = { List T };

    ghost view = { λ s. reverse s.items.items };
}

impl<T: Copy> Stack<T> {
    /// The empty stack. It takes no memory.
    pub fn new(alloc: Global) -> Stack<T>
        ensures { result ≡ [] }
    {
        Stack {
            items: Vec::new(alloc),
        }
    }

    /// The elements from the bottom up.
    pub fn as_slice(&self) -> &[T]
        ensures { result.now ≡ reverse self.now }
    {
        self.items.as_slice()
    }

    pub fn len(&self) -> usize
        ensures { result ≡ length self.now }
    {
        self.items.len()
    }

    /// The element at a place counted from the top.
    pub fn get(&self, from_top: usize) -> Option<T>
        ensures { result ≡ slice_get self.now from_top }
    {
        let n = self.items.len();
        if from_top < n {
            Some(self.items[n - 1 - from_top])
        } else {
            None
        }
    }

    pub fn push(&mut self, item: T) -> Result<(), NoMemory>
        ensures { OnOk result (self.new ≡ item ∷ self.old) }
    {
        self.items.push(item)?;
        Ok(())
    }

    #[tactic(auto, using(crate::proofs::Reversed::reverse_take))]
    /// Takes off `count` elements, or all where there are fewer.
    pub fn pop(&mut self, count: usize)
        ensures { self.new ≡ drop count self.old }
    {
        let n = self.items.len();
        self.items.truncate(n.saturating_sub(count));
    }

    /// A stack of its own with the same elements.
    pub fn copied(alloc: Global, stack: &Stack<T>) -> Result<Stack<T>, NoMemory>
        ensures { IfOk result (λ s. s ≡ stack.now) }
    {
        Ok(Stack {
            items: Vec::from_slice(alloc, stack.items.as_slice())?,
        })
    }
}

/// Whether the two have equal kinds, place by place.
#[tactic(auto, using(crate::proofs::Reversed::same_kinds_reverse))]
pub fn have_same_kinds(a: &Stack<Kind>, b: &Stack<Kind>) -> bool
    ensures { result ≡ same_kinds a.now b.now }
{
    are_same_kinds(a.as_slice(), b.as_slice())
}

/// Whether the two have the same numbers, place by place.
#[tactic(auto, using(crate::proofs::Reversed::pointwise_reverse))]
pub fn have_same_numbers(a: &Stack<u16>, b: &Stack<u16>) -> bool
    ensures { result ≡ bytes_eq a.now b.now }
{
    a.as_slice() == b.as_slice()
}
