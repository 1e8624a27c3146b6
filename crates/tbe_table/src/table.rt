ghost use Rattle.std.specs.Prelude.{◌≡◌, ◌<◌, ◌≤◌, ◌+◌, ◌-◌, ◌↔◌, IsTrue, IsErrOf, IsOk, IsSome, IfOk, IfErr, IfSome, OnOk, OnErr, None, Some, ◌≢◌, slice_set, vec_len};
ghost use Rattle.std.specs.Option.{option_copied};
ghost use Rattle.std.specs.FinMap as map;
ghost use Rattle.ruby_value.specs.Prelude.{Tbes};

use ruby_value::{Fields, LineMap, NoMemory, Value};
use std::alloc::Global;
use std::marker::Model;

/// Why a TBE table refuses a call.
#[derive(Clone, Copy, PartialEq, Eq)]
pub enum TbeFault {
    /// An allocation of a line that is in the table.
    AlreadyThere,
    /// An allocation, of a line that isn't in the table, where it holds as many lines as it may.
    Full,
    /// A call for a line that has to be in the table and isn't.
    NotThere,
    /// There was no memory for one more line.
    NoMemory,
}

/// A bounded finite map from lines to their fields. Lines are line numbers, which are byte addresses divided by
/// 64. A contract sees beside it for how many more lines there is room, which is not how many more it may hold. Each call
/// that names a line costs a search in a hash table or two; fields move in and out, and none are cloned.
#[derive(Drop)]
pub struct TbeTable {
    entries: u32,
    held: LineMap<Fields>,
}

impl Model for TbeTable {
    ghost use Rattle.std.specs.Prelude.{◌≤◌};
    ghost use Rattle.std.specs.FinMap as map;
    ghost use Rattle.ruby_value.specs.Prelude.{Roomy, roomy_code, Tbes, tbes_code};

    ghost Value = { Roomy Tbes };

    ghost coded = { roomy_code tbes_code };

    ghost view = { λ t. record { kept = record { entries = t.entries; held = t.held.kept }; room = t.held.room } };

    ghost invariant = { λ t. map.len t.held.kept ≤ t.entries };
}

impl TbeTable {
    /// The empty table that may hold so many lines. It takes no memory.
    #[tactic(auto, using(crate::proofs::Lens::lens))]
    pub fn new(alloc: Global, entries: u32) -> TbeTable
        ensures { result.kept ≡ record { entries = entries; held = map.empty } }
    {
        TbeTable {
            entries,
            held: LineMap::new(alloc),
        }
    }

    /// The fields of a line, or `None` exactly where the line isn't there. It takes no memory.
    pub fn lookup(&self, line: u64) -> Option<&Fields>
        ensures { option_copied result ≡ map.get self.now.kept.held line }
    {
        self.held.get(line)
    }

    /// Makes room for so many more lines, or answers that there is no memory for them. The table stays as it is.
    pub fn reserve(&mut self, more: usize) -> Result<(), NoMemory>
        ensures same { self.new.kept ≡ self.old.kept }
        ensures ok { OnOk result (more ≤ self.new.room) }
        ensures no_less { self.old.room ≤ self.new.room }
    {
        self.held.reserve(more)?;
        Ok(())
    }

    /// Puts a line with its fields into the table. Where it is refused the table is as it was and the fields
    /// come back: first `AlreadyThere`, where the line is in the table; then `Full`, where the table holds as
    /// many lines as it may; else `NoMemory`, where there is no memory for it, which is never so where there is room.
    #[tactic(auto, using(crate::proofs::Lens::lens))]
    pub fn allocate(&mut self, line: u64, f: Fields) -> Result<(), (TbeFault, Fields)>
        ensures ok { OnOk result (self.new.kept ≡ record self.old.kept { held = map.insert self.old.kept.held line f }) }

        ensures already_there { IsErrOf result (TbeFault.AlreadyThere, f) ↔ IsTrue (map.contains_key self.old.kept.held line) }
        ensures full { IsErrOf result (TbeFault.Full, f) ↔ ((map.get self.old.kept.held line ≡ None) × (map.len self.old.kept.held ≡ self.old.kept.entries)) }
        ensures never_not_there { IfErr result (λ refusal. refusal.0 ≢ TbeFault.NotThere) }
        ensures in_room { 0 < self.old.room → IfErr result (λ refusal. refusal.0 ≢ TbeFault.NoMemory) }

        ensures refused { OnErr result (self.new.kept ≡ self.old.kept) }
        ensures given_back { IfErr result (λ refusal. refusal.1 ≡ f) }
        ensures room { self.old.room ≤ self.new.room + 1 }
    {
        if self.held.contains(line) {
            return Err((TbeFault::AlreadyThere, f));
        }
        if self.free() == 0 {
            return Err((TbeFault::Full, f));
        }
        match self.held.insert(line, f) {
            Ok(_) => Ok(()),
            Err((_, f)) => Err((TbeFault::NoMemory, f)),
        }
    }

    /// Takes a line out of the table and gives its fields back, or `NotThere` exactly where it isn't there, and
    /// then the table is as it was. It takes no memory, and leaves no less room.
    #[tactic(auto, using(crate::proofs::Lens::lens))]
    pub fn deallocate(&mut self, line: u64) -> Result<Fields, TbeFault>
        ensures fields { IfOk result (λ f. map.get self.old.kept.held line ≡ Some f) }
        ensures ok { OnOk result (self.new.kept ≡ record self.old.kept { held = map.remove self.old.kept.held line }) }
        ensures not_there { OnErr result (map.get self.old.kept.held line ≡ None) }
        ensures only_not_there { IfErr result (λ fault. fault ≡ TbeFault.NotThere) }
        ensures refused { OnErr result (self.new.kept ≡ self.old.kept) }
        ensures room { self.old.room ≤ self.new.room }
    {
        self.held.remove(line).ok_or(TbeFault::NotThere)
    }

    /// Writes one field of a line, in its place, and leaves the other fields and lines as they were. The value comes back
    /// exactly where the line isn't there, and then nothing changes; a field that the line doesn't have isn't written. It
    /// takes no memory.
    #[tactic(auto, using(crate::proofs::Lens::lens))]
    pub fn set_field(&mut self, line: u64, field: u16, v: Value) -> Result<(), Value>
        ensures written { OnOk result (IfSome (map.get self.old.kept.held line) (λ fields. self.new.kept ≡ record self.old.kept { held = map.insert self.old.kept.held line (slice_set fields field v) })) }
        ensures there { IsOk result ↔ IsSome (map.get self.old.kept.held line) }
        ensures refused { OnErr result (self.new.kept ≡ self.old.kept) }
        ensures given_back { IfErr result (λ back. back ≡ v) }
        ensures room { self.new.room ≡ self.old.room }
    {
        self.held.set_field(line, field, v)
    }

    /// How many lines the table may hold.
    pub fn entries(&self) -> u32
        ensures { result ≡ self.now.kept.entries }
    {
        self.entries
    }

    /// How many more lines the table may hold. It takes no memory, and it looks at no line.
    pub fn free(&self) -> u64
        ensures left { result ≡ self.now.kept.entries - map.len self.now.kept.held }
        ensures within { map.len self.now.kept.held ≤ self.now.kept.entries }
    {
        u64::from(self.entries) - self.held.len() as u64
    }
}
