ghost use Rattle.std.specs.Prelude.{◌≡◌, ◌<◌, ◌≤◌, ◌^◌, [], ◌∷◌, ◌++◌, ◌==◌, Some, length, slice_get, slice_index_or, slice_set, insert, remove, IfOk, OnOk, OnErr};
ghost use Rattle.std.specs.Borrow.{sem};
ghost use Rattle.std.specs.Iterator.Adapters.{IterYieldsInOrder};
ghost use Rattle.std.specs.Option.{option_copied, option_copied_mut};
ghost use Rattle.std.specs.Slice.Iter.{iter_rest};
ghost use Rattle.ruby_base.specs.Lends.{LendsItem};

use crate::NoMemory;
use std::alloc::Global;
use std::marker::Model;
use std::ops::{DerefSlice, Index};
use std::{mem, slice};

/// A list of values on the heap. A contract sees it as that list, whatever room and address it has.
pub struct Seq<T> {
    items: Vec<T>,
}

impl<T: Drop> Drop for Seq<T> {
    fn drop(self) {
        let Seq { items: _ } = self;
    }
}

/// Bytes, as of a file, a name or a line. They need not be UTF-8.
pub type Text = Seq<u8>;

impl<T> Model for Seq<T> {
    ghost use Rattle.std.specs.Prelude.{List};

    ghost Value = { List T };

    ghost view = { λ s. s.items.items };
}

impl<T> Seq<T> {
    /// The empty list. It takes no memory.
    pub fn new(alloc: Global) -> Seq<T>
        ensures { result ≡ [] }
    {
        Seq {
            items: Vec::new(alloc),
        }
    }

    /// The list of a vector's elements, in their order. It takes no memory.
    pub fn of(items: Vec<T>) -> Seq<T>
        ensures { result ≡ items.items }
    {
        Seq { items }
    }

    /// The vector of the elements, in their order. It takes no memory.
    pub fn into_vec(self) -> Vec<T>
        ensures { result.items ≡ self }
    {
        let Seq { items } = self;
        items
    }

    /// How many elements there are.
    pub fn len(&self) -> usize
        ensures { result ≡ length self.now }
    {
        self.items.len()
    }

    pub fn is_empty(&self) -> bool
        ensures { result ≡ (length self.now == 0) }
    {
        self.items.is_empty()
    }

    /// The elements, lent as a slice.
    pub fn as_slice(&self) -> &[T]
        ensures { result.now ≡ self.now }
    {
        self.items.as_slice()
    }

    /// The element at a place counted from 0, or `None` where the list ends before it.
    pub fn get(&self, index: usize) -> Option<&T>
        ensures { option_copied result ≡ slice_get self.now index }
    {
        self.items.get(index)
    }

    /// The element at a place counted from 0, to be written, or `None` where the list ends before it. What is written
    /// there is the element at that place afterwards.
    pub fn get_mut(&mut self, index: usize) -> Option<&mut T>
        ensures* writes_back { sem 𝓛 (LendsItem T.row self.entry index result) }
        ensures value { option_copied_mut result ≡ slice_get self.old index }
    {
        self.items.get_mut(index)
    }

    /// The elements one after another. `for x in &seq` goes over them too.
    pub fn iter(&self) -> slice::Iter<'_, T>
        ensures rest { iter_rest result ≡ self.now }
        ensures bound { length (iter_rest result) < 2 ^ 64 }
        ensures runs { IterYieldsInOrder T }
    {
        self.items.iter()
    }

    /// Adds an element at the end. Without memory for it the list is as it was, and the element is dropped.
    pub fn push(&mut self, item: T) -> Result<(), NoMemory>
    where
        T: Drop,
        ensures ok { OnOk result (self.new ≡ self.old ++ item ∷ []) }
        ensures err { OnErr result (self.new ≡ self.old) }
    {
        self.items.push(item)?;
        Ok(())
    }

    /// Puts an element before the one at a place counted from 0, or at the end. Without memory for it the list
    /// is as it was, and the element is dropped.
    pub fn insert(&mut self, index: usize, item: T) -> Result<(), NoMemory>
    where
        T: Drop,
        requires { index ≤ length self.old }
        ensures ok { OnOk result (self.new ≡ insert self.old index item) }
        ensures err { OnErr result (self.new ≡ self.old) }
    {
        self.items.insert(index, item)?;
        Ok(())
    }

    /// Takes out the element at a place counted from 0. It takes no memory.
    pub fn remove(&mut self, index: usize) -> T
        requires { index < length self.old }
        ensures value { Some result ≡ slice_get self.old index }
        ensures rest { self.new ≡ remove self.old index }
    {
        self.items.remove(index)
    }

    /// Puts an element in the place of the one at a place counted from 0, which it gives back. It takes no memory.
    pub fn replace(&mut self, index: usize, item: T) -> T
        requires { index < length self.old }
        ensures value { Some result ≡ slice_get self.old index }
        ensures after { self.new ≡ slice_set self.old index item }
    {
        mem::replace(&mut self.items[index], item)
    }
}

impl<T> Index<usize> for Seq<T> {
    type Output = T;

    ghost can_index = { λ s i. i < length s };

    ghost index_gives = { λ s i x. slice_get s i ≡ Some x };

    fn index(&self, index: usize) -> &T {
        &self.items[index]
    }
}

impl<T> DerefSlice for Seq<T> {
    type Elem = T;

    ghost deref_gives = { λ s xs. xs ≡ s };

    fn deref(&self) -> &[T] {
        self.items.as_slice()
    }
}

impl<'a, T> IntoIterator for &'a Seq<T> {
    type Item = &'a T;

    type IntoIter = slice::Iter<'a, T>;

    ghost into_iter_gives = { λ s it. (iter_rest it ≡ s.now) × (length (iter_rest it) < 2 ^ 64) × IterYieldsInOrder T };

    fn into_iter(self) -> slice::Iter<'a, T> {
        self.items.iter()
    }
}

impl<T: Copy> Seq<T> {
    /// A list of its own with the elements of a slice.
    pub fn copied(alloc: Global, items: &[T]) -> Result<Seq<T>, NoMemory>
        ensures { IfOk result (λ s. s ≡ items.now) }
    {
        Ok(Seq {
            items: Vec::from_slice(alloc, items)?,
        })
    }

    /// A list with an element between two parts. It takes the room of the first part.
    pub fn between(mut before: Vec<T>, item: T, after: &[T]) -> Result<Seq<T>, NoMemory>
        ensures { IfOk result (λ s. s ≡ before.items ++ item ∷ after.now) }
    {
        before.push(item)?;
        before.extend_from_slice(after)?;
        Ok(Seq { items: before })
    }

    /// Adds the elements of a slice at the end. Without memory for them the list is as it was.
    pub fn append(&mut self, more: &[T]) -> Result<(), NoMemory>
        ensures ok { OnOk result (self.new ≡ self.old ++ more.now) }
        ensures err { OnErr result (self.new ≡ self.old) }
    {
        self.items.extend_from_slice(more)?;
        Ok(())
    }
}
