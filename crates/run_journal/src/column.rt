ghost use Rattle.std.specs.Prelude.{◌≡◌, ◌<◌, ◌≤◌, ◌+◌, ◌-◌, ◌^◌, [], ◌∷◌, ◌++◌, OnOk, length, slice_index_or, take, drop};

use crate::NoMemory;
use std::alloc::Global;
use std::marker::Model;

/// A list of fewer than 2^32 values, whose places 32 bits can say. A contract sees the list, and beside it for how many more values
/// there is room.
pub(crate) struct Column<T> {
    items: Vec<T>,
}

impl<T: Drop> Drop for Column<T> {
    fn drop(self) {
        let Column { items: _ } = self;
    }
}

impl<T> Model for Column<T> {
    ghost use Rattle.std.specs.Prelude.{List, ◌-◌, ◌<◌, ◌^◌, min, vec_capacity, vec_len};
    ghost use Rattle.std.specs.Coded.{coded_list};
    ghost use Rattle.ruby_value.specs.Roomy.{Roomy, roomy_code};

    ghost Value = { Roomy (List T) };

    ghost coded = { roomy_code (coded_list T.code) };

    ghost view = { λ c. record {
      kept = c.items.items;
      room = min (vec_capacity c.items) (2 ^ 32 - 1) - vec_len c.items;
    } };

    ghost invariant = { λ c. vec_len c.items < 2 ^ 32 };
}

impl<T> Column<T> {
    /// The empty list. It takes no memory.
    pub(crate) fn new(alloc: Global) -> Column<T>
        ensures { result.kept ≡ [] }
    {
        Column {
            items: Vec::new(alloc),
        }
    }

    /// How many values there are.
    pub(crate) fn len(&self) -> u32
        ensures { result ≡ length self.now.kept }
    {
        self.items.len() as u32
    }

    /// For how many more values there is room.
    pub(crate) fn room(&self) -> u32
        ensures { result ≡ self.now.room }
    {
        let most = self.items.capacity().min(0xffff_ffff);
        most.saturating_sub(self.items.len()) as u32
    }

    /// Makes room for more values, or answers that there is none: no memory, or no place that 32 bits can say. The values stay.
    pub(crate) fn reserve(&mut self, more: usize) -> Result<(), NoMemory>
        ensures same { self.new.kept ≡ self.old.kept }
        ensures ok { OnOk result (more ≤ self.new.room) }
        ensures no_less { self.old.room ≤ self.new.room }
    {
        if more > (0xffff_ffff - self.len()) as usize {
            return Err(NoMemory);
        }
        self.items.reserve(more)?;
        Ok(())
    }

    /// Adds a value at the end, where there is room. It takes no memory.
    pub(crate) fn push(&mut self, item: T)
        requires { 0 < self.old.room }
        ensures after { self.new.kept ≡ self.old.kept ++ item ∷ [] }
        ensures room { self.old.room ≤ self.new.room + 1 }
        ensures few { length self.new.kept < 2 ^ 32 }
    {
        self.items.push_reserved(item);
    }

    /// The value at a place, counted from 0.
    pub(crate) fn at(&self, place: u32) -> &T
        requires { place < length self.now.kept }
        ensures value { (d : T) → slice_index_or self.now.kept place d ≡ result.now }
        ensures few { length self.now.kept < 2 ^ 32 }
    {
        &self.items[place as usize]
    }

    /// The values from one place on and before another.
    pub(crate) fn part(&self, from: u32, to: u32) -> &[T]
        requires from { from ≤ to }
        requires to { to ≤ length self.now.kept }
        ensures { result.now ≡ take (to - from) (drop from self.now.kept) }
    {
        &self.items[from as usize..to as usize]
    }
}

impl<T: Copy> Column<T> {
    /// Adds the values of a slice at the end, where there is room. It takes no memory.
    pub(crate) fn append(&mut self, more: &[T])
        requires { length more.now ≤ self.old.room }
        ensures after { self.new.kept ≡ self.old.kept ++ more.now }
        ensures room { self.old.room ≤ self.new.room + length more.now }
    {
        if self.items.extend_from_slice(more).is_err() {
            unreachable!()
        }
    }
}
