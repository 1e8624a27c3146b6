ghost use Rattle.std.specs.Prelude.{◌≡◌, ◌<◌, ◌≤◌, ◌+◌, ◌↔◌, IfErr, IfSome, IsOk, IsSome, OnOk, OnErr, slice_set, vec_len};
ghost use Rattle.std.specs.FinMap as map;
ghost use Rattle.ruby_value.specs.Prelude.{Directory, fields_at};

use crate::{Fields, NoMemory};
use ruby_value::{LineMap, Value};
use std::alloc::Global;
use std::marker::Model;

/// The memory of a directory. Lines are line numbers, which are byte addresses divided by 64. Each line has
/// fields from the start, which are the default ones until others are written. It takes memory for the lines
/// that were written alone, and a contract sees beside them for how many more there is room. A call costs a search in a hash
/// table; fields move in, and none are cloned.
#[derive(Drop)]
pub struct DirMemory {
    default: Fields,
    written: LineMap<Fields>,
}

impl Model for DirMemory {
    ghost use Rattle.ruby_value.specs.Prelude.{Directory, directory_code, Roomy, roomy_code};

    ghost Value = { Roomy Directory };

    ghost coded = { roomy_code directory_code };

    ghost view = { λ d. record { kept = record { initial = d.default; written = d.written.kept }; room = d.written.room } };
}

impl DirMemory {
    /// The directory in which each line has these fields. It takes no memory.
    pub fn new(alloc: Global, default: Fields) -> DirMemory
        ensures { result.kept ≡ record { initial = default; written = map.empty } }
    {
        DirMemory {
            default,
            written: LineMap::new(alloc),
        }
    }

    /// The fields of a line: those that were written last, or the default ones. It takes no memory.
    pub fn lookup(&self, line: u64) -> &Fields
        ensures { result.now ≡ fields_at self.now.kept line }
    {
        match self.written.get(line) {
            Some(f) => f,
            None => &self.default,
        }
    }

    /// Makes room for so many more lines to be written, or answers that there is no memory for them. The lines stay as they
    /// are.
    pub fn reserve(&mut self, more: usize) -> Result<(), NoMemory>
        ensures same { self.new.kept ≡ self.old.kept }
        ensures ok { OnOk result (more ≤ self.new.room) }
        ensures no_less { self.old.room ≤ self.new.room }
    {
        self.written.reserve(more)?;
        Ok(())
    }

    /// Writes the fields of a line; the other lines are as they were. Without memory for it the directory is as
    /// it was, and the fields come back; where there is room, none is wanted.
    pub fn write(&mut self, line: u64, f: Fields) -> Result<(), (NoMemory, Fields)>
        ensures ok { OnOk result (self.new.kept ≡ record self.old.kept { written = map.insert self.old.kept.written line f }) }
        ensures refused { OnErr result (self.new.kept ≡ self.old.kept) }
        ensures given_back { IfErr result (λ refusal. refusal.1 ≡ f) }
        ensures in_room { 0 < self.old.room → IsOk result }
        ensures room { self.old.room ≤ self.new.room + 1 }
    {
        let _old = self.written.insert(line, f)?;
        Ok(())
    }

    /// Writes one field of a line that was written before, in its place, and leaves the other fields and lines as they were.
    /// The value comes back exactly where the line wasn't written yet, and then nothing changes: its default fields are shared,
    /// and a first write brings all of them, by `write`. A field that the line doesn't have isn't written. It takes no memory.
    pub fn set_field(&mut self, line: u64, field: u16, v: Value) -> Result<(), Value>
        ensures written { OnOk result (IfSome (map.get self.old.kept.written line) (λ fields. self.new.kept ≡ record self.old.kept { written = map.insert self.old.kept.written line (slice_set fields field v) })) }
        ensures there { IsOk result ↔ IsSome (map.get self.old.kept.written line) }
        ensures refused { OnErr result (self.new.kept ≡ self.old.kept) }
        ensures given_back { IfErr result (λ back. back ≡ v) }
        ensures room { self.new.room ≡ self.old.room }
    {
        self.written.set_field(line, field, v)
    }

    /// Whether the line was written, so that it has fields of its own. It takes no memory.
    pub fn is_written(&self, line: u64) -> bool
        ensures { result ≡ map.contains_key self.now.kept.written line }
    {
        self.written.contains(line)
    }
}

// Writes lines one after another. None wants memory, since there is room for all of them.
fn write_all(memory: &mut DirMemory, mut lines: Vec<(u64, Fields)>)
    requires { vec_len lines ≤ memory.old.room }
{
    while let Some((line, f)) = lines.pop() {
        if memory.write(line, f).is_err() {
            unreachable!()
        }
    }
}
