ghost use Rattle.std.specs.Prelude.{◌≡◌, ◌<◌, ◌≤◌, ◌+◌, None, OnOk, OnErr, IfNone, IfSome, IfOk, IfErr, IsOk, IsSome, ◌↔◌, slice_set, vec_len};
ghost use Rattle.std.specs.Option.{option_copied};
ghost use Rattle.std.specs.Ordering.{nat_cmp};
ghost use Rattle.std.specs.FinMap as map;
ghost use Rattle.std.specs.HashMap.{spare};
ghost use Rattle.std.specs.Coded.{coded_ℕ};
ghost use Rattle.ruby_value.specs.WithAll.{with_all};

use crate::{Fields, NoMemory, Value};
use std::alloc::Global;
use std::collections::HashMap;
use std::marker::Model;

/// What is kept under lines, whose line numbers are byte addresses divided by 64. A contract sees it as a finite
/// map from line numbers, and beside it for how many more lines there is room. Each call that names a line costs one
/// search in a hash table; a value moves in and out, and none is cloned.
#[derive(Drop)]
pub struct LineMap<V> {
    entries: HashMap<u64, V>,
}

impl<V> Model for LineMap<V> {
    ghost use Rattle.std.specs.Ordering.{nat_cmp};
    ghost use Rattle.std.specs.FinMap as map;
    ghost use Rattle.std.specs.HashMap.{spare};
    ghost use Rattle.std.specs.Coded.{coded_ℕ};
    ghost use Rattle.ruby_value.specs.Roomy.{Roomy, roomy_code};

    ghost Value = { Roomy (map.FinMap nat_cmp V) };

    ghost coded = { roomy_code (map.code coded_ℕ V.code) };

    ghost view = { λ m. record { kept = map.from_entries m.entries.entries; room = spare m.entries } };
}

impl<V> LineMap<V> {
    /// The empty map. It takes no memory.
    pub fn new(alloc: Global) -> LineMap<V>
        ensures { result.kept ≡ map.empty }
    {
        LineMap {
            entries: HashMap::new(alloc),
        }
    }

    /// How many lines there are.
    pub fn len(&self) -> usize
        ensures { result ≡ map.len self.now.kept }
    {
        self.entries.len()
    }

    /// What is kept under the line, or `None` exactly where the line isn't there.
    pub fn get(&self, line: u64) -> Option<&V>
        ensures { option_copied result ≡ map.get self.now.kept line }
    {
        self.entries.get(&line)
    }

    /// Whether the line is there.
    pub fn contains(&self, line: u64) -> bool
        ensures { result ≡ map.contains_key self.now.kept line }
    {
        self.entries.contains_key(&line)
    }

    /// Makes room for so many more lines, or answers that there is no memory for them. The lines stay as they are.
    pub fn reserve(&mut self, more: usize) -> Result<(), NoMemory>
        ensures same { self.new.kept ≡ self.old.kept }
        ensures ok { OnOk result (more ≤ self.new.room) }
        ensures no_less { self.old.room ≤ self.new.room }
    {
        self.entries.reserve(more)?;
        Ok(())
    }

    /// Keeps the value under the line, in place of the one that was there, which it gives back. Without memory
    /// the map is as it was and the value comes back; where the line is there already, or there is room, none is taken.
    pub fn insert(&mut self, line: u64, value: V) -> Result<Option<V>, (NoMemory, V)>
        ensures before { IfOk result (λ old. old ≡ map.get self.old.kept line) }
        ensures after { OnOk result (self.new.kept ≡ map.insert self.old.kept line value) }
        ensures refused { OnErr result (self.new.kept ≡ self.old.kept) }
        ensures given_back { IfErr result (λ back. back.1 ≡ value) }
        ensures there_already { OnErr result (map.get self.old.kept line ≡ None) }
        ensures in_room { 0 < self.old.room → IsOk result }
        ensures room { self.old.room ≤ self.new.room + 1 }
    {
        match self.entries.insert(line, value) {
            Ok(old) => Ok(old),
            Err(refused) => Err((NoMemory, refused.value.1)),
        }
    }

    /// Keeps the value under the line as `insert` does, where there is room, and takes no memory.
    pub fn put(&mut self, line: u64, value: V) -> Option<V>
    where
        V: Drop,
        requires { 0 < self.old.room }
        ensures before { result ≡ map.get self.old.kept line }
        ensures after { self.new.kept ≡ map.insert self.old.kept line value }
        ensures room { self.old.room ≤ self.new.room + 1 }
    {
        match self.insert(line, value) {
            Ok(old) => old,
            Err(_) => unreachable!(),
        }
    }

    /// Keeps values under their lines one after another, from the last one on, as `put` does, where there is room for so many.
    /// It takes no memory, so where room was made for n lines none is wanted for n of them.
    pub fn put_all(&mut self, mut entries: Vec<(u64, V)>)
    where
        V: Drop,
        requires { vec_len entries ≤ self.old.room }
        ensures after { self.new.kept ≡ with_all self.old.kept entries.items }
        ensures room { self.old.room ≤ self.new.room + vec_len entries }
    {
        while let Some((line, value)) = entries.pop() {
            let _before = self.put(line, value);
        }
    }

    /// Takes the line out, and gives what was kept under it, or `None` exactly where the line wasn't there. It
    /// takes no memory, and leaves no less room.
    pub fn remove(&mut self, line: u64) -> Option<V>
        ensures before { result ≡ map.get self.old.kept line }
        ensures after { self.new.kept ≡ map.remove self.old.kept line }
        ensures not_there { IfNone result (self.new.kept ≡ self.old.kept) }
        ensures room { self.old.room ≤ self.new.room }
    {
        self.entries.remove(&line)
    }
}

impl LineMap<Fields> {
    /// Writes one field of a line, in its place, and leaves the other fields and lines as they were. The value comes back
    /// exactly where the line isn't there, and then nothing changes; a field that the line doesn't have isn't written. It
    /// takes no memory.
    pub fn set_field(&mut self, line: u64, field: u16, v: Value) -> Result<(), Value>
        ensures written { OnOk result (IfSome (map.get self.old.kept line) (λ fields. self.new.kept ≡ map.insert self.old.kept line (slice_set fields field v))) }
        ensures there { IsOk result ↔ IsSome (map.get self.old.kept line) }
        ensures refused { OnErr result (self.new.kept ≡ self.old.kept) }
        ensures given_back { IfErr result (λ back. back ≡ v) }
        ensures room { self.new.room ≡ self.old.room }
    {
        match self.entries.get_mut(&line) {
            Some(fields) => {
                fields.write(field, v);
                Ok(())
            }
            None => Err(v),
        }
    }
}
