ghost use Rattle.std.specs.Prelude.{◌≡◌, ◌<◌, ◌≤◌, [], ◌∷◌, ◌++◌, Some, length, take, slice_get, slice_set, OnOk, OnErr};

use crate::slot::Slot;
use ruby_base::NoMemory;
use std::alloc::Global;
use std::marker::Model;

/// Slots, of which so many are in use. A contract sees these, from the lowest up.
#[derive(Drop)]
pub(crate) struct Words {
    slots: Vec<Slot>,
    count: usize,
}

impl Model for Words {
    ghost use Rattle.std.specs.Prelude.{List, ◌≤◌, length, take};
    ghost use Rattle.code_frame.specs.declared.slot.Slot.{Slot};

    ghost Value = { List Slot };

    ghost view = { λ w. take w.count w.slots.items };

    ghost invariant = { λ w. w.count ≤ length w.slots.items };
}

impl Words {
    /// None. It takes no memory.
    pub fn new(alloc: Global) -> Words
        ensures { result ≡ [] }
    {
        Words {
            slots: Vec::new(alloc),
            count: 0,
        }
    }

    pub fn len(&self) -> usize
        ensures { result ≡ length self.now }
    {
        self.count
    }

    /// Puts a slot on top.
    pub fn push(&mut self, s: Slot) -> Result<(), NoMemory>
        ensures ok { OnOk result (self.new ≡ self.old ++ s ∷ []) }
        ensures err { OnErr result (self.new ≡ self.old) }
    {
        if self.count < self.slots.len() {
            self.slots[self.count] = s;
        } else {
            self.slots.push(s)?;
        }
        self.count += 1;
        Ok(())
    }

    /// Takes off the slot on top.
    pub fn pop(&mut self) -> Slot
        requires { 0 < length self.old }
        ensures { self.old ≡ self.new ++ result ∷ [] }
    {
        self.count -= 1;
        self.slots[self.count]
    }

    /// The slot at a place counted from 0.
    pub fn at(&self, i: usize) -> Slot
        requires { i < length self.now }
        ensures { Some result ≡ slice_get self.now i }
    {
        self.slots[i]
    }

    /// Puts a slot in the place of the one there.
    pub fn put(&mut self, i: usize, s: Slot)
        requires { i < length self.old }
        ensures { self.new ≡ slice_set self.old i s }
    {
        self.slots[i] = s;
    }

    /// Leaves so many.
    pub fn cut(&mut self, n: usize)
        requires { n ≤ length self.old }
        ensures { self.new ≡ take n self.old }
    {
        self.count = n;
    }
}
