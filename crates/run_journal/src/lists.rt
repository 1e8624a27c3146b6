ghost use Rattle.std.specs.Prelude.{◌≡◌, ◌<◌, ◌≤◌, ◌+◌, ◌^◌, [], ◌∷◌, ◌++◌, OnOk, length, slice_index_or};
ghost use Rattle.run_journal.specs.Listed.{start_of};

use crate::NoMemory;
use crate::column::Column;
use std::alloc::Global;
use std::marker::Model;

/// Lists whose values stand one after another in one column, so that a list costs its values and 4 bytes. A contract sees them as a
/// list of lists, and beside it for how many more lists and values there is room.
pub(crate) struct Lists<T> {
    items: Column<T>,
    // Where each list ends.
    ends: Column<u32>,
}

impl<T: Drop> Drop for Lists<T> {
    fn drop(self) {
        let Lists { items: _, ends: _ } = self;
    }
}

impl<T> Model for Lists<T> {
    ghost use Rattle.std.specs.Prelude.{length};
    ghost use Rattle.run_journal.specs.Listed.{AreEnds, Listed, listed_code, lists_between};

    ghost Value = { Listed T };

    ghost coded = { listed_code T.code };

    ghost view = { λ l. record {
      lists = lists_between 0 l.ends.kept l.items.kept;
      list_room = l.ends.room;
      item_room = l.items.room;
    } };

    ghost invariant = { λ l. AreEnds 0 l.ends.kept (length l.items.kept) };
}

// Where the list at a place begins.
fn start_of(ends: &Column<u32>, place: u32) -> u32
    requires { place < length ends.now.kept }
    ensures { result ≡ start_of 0 ends.now.kept place }
{
    if place == 0 {
        return 0;
    }
    *ends.at(place - 1)
}

impl<T> Lists<T> {
    /// No lists. It takes no memory.
    pub(crate) fn new(alloc: Global) -> Lists<T>
        ensures { result.lists ≡ [] }
    {
        Lists {
            items: Column::new(alloc),
            ends: Column::new(alloc),
        }
    }

    /// How many lists there are.
    pub(crate) fn len(&self) -> u32
        ensures { result ≡ length self.now.lists }
    {
        self.ends.len()
    }

    /// For how many more lists there is room.
    pub(crate) fn list_room(&self) -> u32
        ensures { result ≡ self.now.list_room }
    {
        self.ends.room()
    }

    /// For how many more values there is room.
    pub(crate) fn item_room(&self) -> u32
        ensures { result ≡ self.now.item_room }
    {
        self.items.room()
    }

    /// Makes room for more lists and for more values in them, or answers that there is none. The lists stay.
    pub(crate) fn reserve(&mut self, lists: usize, items: usize) -> Result<(), NoMemory>
        ensures same { self.new.lists ≡ self.old.lists }
        ensures lists { OnOk result (lists ≤ self.new.list_room) }
        ensures items { OnOk result (items ≤ self.new.item_room) }
        ensures no_fewer { self.old.list_room ≤ self.new.list_room }
        ensures no_less { self.old.item_room ≤ self.new.item_room }
    {
        self.ends.reserve(lists)?;
        self.items.reserve(items)?;
        Ok(())
    }

    /// The list at a place, counted from 0.
    pub(crate) fn at(&self, place: u32) -> &[T]
        requires { place < length self.now.lists }
        ensures value { result.now ≡ slice_index_or self.now.lists place [] }
        ensures few { length self.now.lists < 2 ^ 32 }
    {
        self.items
            .part(start_of(&self.ends, place), *self.ends.at(place))
    }
}

impl<T: Copy> Lists<T> {
    /// Adds a list at the end, where there is room for it. It takes no memory.
    pub(crate) fn push(&mut self, list: &[T])
        requires list { 0 < self.old.list_room }
        requires items { length list.now ≤ self.old.item_room }
        ensures after { self.new.lists ≡ self.old.lists ++ list.now ∷ [] }
        ensures list_room { self.old.list_room ≤ self.new.list_room + 1 }
        ensures item_room { self.old.item_room ≤ self.new.item_room + length list.now }
    {
        self.items.append(list);
        self.ends.push(self.items.len());
    }
}
