ghost use Rattle.std.specs.Prelude.{◌≡◌, ◌==◌, ◌<◌, ◌≤◌, ◌+◌, ◌↔◌, [], ◌∷◌, ◌++◌, length, position, slice_get, slice_set, is_some, IsSome, IsOk, IfSome, IfNone, OnOk, OnErr, IfOk, IfErr};
ghost use Rattle.std.specs.Bool.{OnFalse};
ghost use Rattle.std.specs.Option.{option_copied, option_map};
ghost use Rattle.ruby_value.specs.Prelude.{fields_of, made_recent, with_fields, without_line};

use crate::{Fields, NoMemory};
use ruby_value::Value;
use std::alloc::Global;
use std::marker::Model;

/// The lines of one set of a cache, the least recently used first, with places for all that it may hold. Each call costs at
/// most a walk along them.
#[derive(Drop)]
pub(crate) struct UseOrder {
    lines: Vec<(u64, Fields)>,
}

impl Model for UseOrder {
    ghost use Rattle.std.specs.Prelude.{List, ◌-◌, vec_len, vec_capacity};
    ghost use Rattle.std.specs.Coded.{coded×, coded_ℕ, coded_list};
    ghost use Rattle.ruby_value.specs.Prelude.{Line, Roomy, roomy_code};
    ghost use Rattle.ruby_value.specs.contracts.value.Value as value;

    ghost Value = { Roomy (List Line) };

    ghost coded = { roomy_code (coded_list (coded× coded_ℕ (coded_list value.the_row.coded))) };

    ghost view = { λ s. record { kept = s.lines.items; room = vec_capacity s.lines - vec_len s.lines } };
}

impl UseOrder {
    // No lines, with places for so many.
    pub(crate) fn new(alloc: Global, ways: u32) -> Result<UseOrder, NoMemory>
        ensures empty { IfOk result (λ s. s.kept ≡ []) }
        ensures places { IfOk result (λ s. ways ≤ s.room + length s.kept) }
    {
        Ok(UseOrder {
            lines: Vec::with_capacity(alloc, ways as usize)?,
        })
    }

    pub(crate) fn len(&self) -> usize
        ensures { result ≡ length self.now.kept }
    {
        self.lines.len()
    }

    // Where the line stands, counted from the least recently used one.
    fn place(&self, line: u64) -> Option<usize>
        ensures { result ≡ position (λ l. l.0 == line) self.now.kept }
    {
        self.lines.iter().position(|l| l.0 == line)
    }

    pub(crate) fn get(&self, line: u64) -> Option<&Fields>
        ensures { option_copied result ≡ fields_of self.now.kept line }
    {
        match self.place(line) {
            Some(at) => Some(&self.lines[at].1),
            None => None,
        }
    }

    pub(crate) fn holds(&self, line: u64) -> bool
        ensures { result ≡ is_some (fields_of self.now.kept line) }
    {
        self.get(line).is_some()
    }

    // The number of the line at a place.
    pub(crate) fn line_at(&self, at: usize) -> Option<u64>
        ensures { result ≡ option_map (λ l. l.0) (slice_get self.now.kept at) }
    {
        match self.lines.get(at) {
            Some(l) => Some(l.0),
            None => None,
        }
    }

    // Puts a line at the end, for which there is a place.
    pub(crate) fn push(&mut self, line: u64, f: Fields)
        requires { 0 < self.old.room }
        ensures after { self.new.kept ≡ self.old.kept ++ (line, f) ∷ [] }
        ensures places { self.old.room + length self.old.kept ≤ self.new.room + length self.new.kept }
    {
        if self.lines.push((line, f)).is_err() {
            unreachable!()
        }
    }

    pub(crate) fn remove(&mut self, line: u64) -> Option<Fields>
        ensures fields { result ≡ fields_of self.old.kept line }
        ensures after { self.new.kept ≡ without_line self.old.kept line }
        ensures not_there { IfNone result (self.new.kept ≡ self.old.kept) }
        ensures places { self.old.room + length self.old.kept ≤ self.new.room + length self.new.kept }
    {
        let at = self.place(line)?;
        Some(self.lines.remove(at).1)
    }

    // Takes the line to the end, and says whether it was there.
    pub(crate) fn make_recent(&mut self, line: u64) -> bool
        ensures found { result ≡ is_some (fields_of self.old.kept line) }
        ensures after { self.new.kept ≡ made_recent self.old.kept line }
        ensures not_there { OnFalse result (self.new.kept ≡ self.old.kept) }
        ensures places { self.old.room + length self.old.kept ≤ self.new.room + length self.new.kept }
    {
        let Some(at) = self.place(line) else {
            return false;
        };
        let used = self.lines.remove(at);
        self.lines.push(used).unwrap();
        true
    }

    // Writes a field of the line, in its place.
    pub(crate) fn set_field(&mut self, line: u64, field: u16, v: Value) -> Result<(), Value>
        ensures ok { OnOk result (IfSome (fields_of self.old.kept line) (λ fields. self.new.kept ≡ with_fields self.old.kept line (slice_set fields field v))) }
        ensures there { IsOk result ↔ IsSome (fields_of self.old.kept line) }
        ensures refused { OnErr result (self.new.kept ≡ self.old.kept) }
        ensures given_back { IfErr result (λ back. back ≡ v) }
        ensures places { self.old.room + length self.old.kept ≤ self.new.room + length self.new.kept }
    {
        let Some(at) = self.place(line) else {
            return Err(v);
        };
        self.lines[at].1.write(field, v);
        Ok(())
    }
}
