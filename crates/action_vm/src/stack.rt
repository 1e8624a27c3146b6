ghost use Rattle.std.specs.Prelude.{◌≡◌, ◌∷◌, [], reverse, slice_get, OnOk, OnErr};
ghost use Rattle.std.specs.Option.{option_copied};
ghost use Rattle.action_vm.specs.Stacks.{Popped};

use ruby_base::NoMemory;
use std::alloc::Global;
use std::marker::Model;

/// A stack. Contracts see it as the list of its elements from the top down.
#[derive(Drop)]
pub(crate) struct Stack<T> {
    items: Vec<T>,
}

impl<T> Model for Stack<T> {
    ghost use Rattle.std.specs.Prelude.{List, reverse};

    ghost Value = { List T };

    ghost view = { λ s. reverse s.items.items };
}

impl<T: Drop> Stack<T> {
    /// The empty stack. It takes no memory.
    pub fn new(alloc: Global) -> Stack<T>
        ensures { result ≡ [] }
    {
        Stack {
            items: Vec::new(alloc),
        }
    }

    #[tactic(auto, using(crate::proofs::Stacks::reverse_push))]
    pub fn push(&mut self, item: T) -> Result<(), NoMemory>
        ensures ok { OnOk result (self.new ≡ item ∷ self.old) }
        ensures err { OnErr result (self.new ≡ self.old) }
    {
        self.items.push(item)?;
        Ok(())
    }

    /// Takes off the element on top, if there is one.
    pub fn pop(&mut self) -> Option<T>
        ensures { Popped result self.old self.new }
    {
        self.items.pop()
    }

    /// The element on top, if there is one.
    pub fn top(&self) -> Option<&T>
        ensures { option_copied result ≡ slice_get self.now 0 }
    {
        self.items.last()
    }
}
