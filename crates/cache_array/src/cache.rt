ghost use Rattle.std.specs.Prelude.{◌≡◌, ◌≢◌, ◌==◌, ◌≤◌, ◌<◌, ◌*◌, ◌%◌, ◌↔◌, [], ◌∷◌, ◌++◌, length, replicate, slice_get, slice_set, is_some, IsTrue, IsNone, IsSome, IsOk, IsErrOf, IfOk, IfErr, IfSome, OnOk, OnErr, OnSome, None, Some, false};
ghost use Rattle.std.specs.Option.{option_copied, option_map};
ghost use Rattle.ruby_value.specs.Prelude.{available, fields_of, IsCache, made_recent, set_of, with_fields, with_set, without_line};
ghost use Rattle.std.specs.List.{All};
ghost use Rattle.cache_array.specs.Holds.{HasPlaces, IsMask, lines_of};

use crate::use_order::UseOrder;
use crate::{Fields, NoMemory};
use ruby_value::Value;
use std::alloc::Global;
use std::marker::Model;

/// Why a cache refuses a call.
#[derive(Clone, Copy, PartialEq, Eq)]
pub enum CacheFault {
    /// An allocation, of a line that isn't in the cache, where its set has as many lines as ways.
    SetFull,
    /// An allocation of a line that is in the cache.
    AlreadyThere,
    /// A call for a line that has to be in the cache and isn't.
    NotThere,
    /// There was no memory for one more line. No call answers so, since a cache takes memory for all its lines when it is made.
    NoMemory,
}

/// A cache of sets and ways. Lines are line numbers, which are byte addresses divided by 64, and a line's set is
/// its number modulo the sets, as in gem5. A contract sees for each set the list of its lines with their fields,
/// the least recently used first; that no other order of replacement is offered is this project's own rule.
///
/// A call touches the set of its line alone and walks along the lines of that set, so it costs at most as many
/// steps as there are ways, however many sets there are and however many lines they hold. Where the number of sets is a
/// power of two, a line's set is found by a mask. Fields move in and out, and none are cloned. A cache has places for all its
/// lines from the start, so there is always room for a line that a set may hold; the fields of a line are memory of their own.
#[derive(Drop)]
pub struct CacheArray {
    ways: u32,
    mask: Option<u64>,
    sets: Vec<UseOrder>,
}

impl Model for CacheArray {
    ghost use Rattle.ruby_value.specs.Prelude.{Cache, cache_code};
    ghost use Rattle.cache_array.specs.Holds.{lines_of, Holds};

    ghost Value = { Cache };

    ghost coded = { cache_code };

    ghost view = { λ c. record { ways = c.ways; sets = lines_of c.sets.items } };

    ghost invariant = { λ c. Holds c.ways c.mask c.sets.items };
}

impl CacheArray {
    /// The empty cache with so many sets of so many ways each. It takes memory for all the lines that it may hold, and costs
    /// one step for each set.
    pub fn new(alloc: Global, sets: u32, ways: u32) -> Result<CacheArray, NoMemory>
        requires some_sets { 1 ≤ sets }
        requires some_ways { 1 ≤ ways }
        requires small { sets * ways ≤ 65536 }
        ensures { IfOk result (λ cache. cache ≡ record { ways = ways; sets = replicate sets [] }) }
    {
        let sets = empty_sets(alloc, sets, ways)?;
        Ok(CacheArray {
            ways,
            mask: mask_of(sets.len() as u64),
            sets,
        })
    }

    /// The fields of a line, or `None` exactly where the line isn't in the cache. The order of use stays as it
    /// is, which is this project's own rule. It takes no memory.
    pub fn lookup(&self, line: u64) -> Option<&Fields>
        ensures { option_copied result ≡ fields_of (set_of self.now line) line }
    {
        self.set(line).get(line)
    }

    /// Whether the line is in the cache. It takes no memory.
    pub fn is_tag_present(&self, line: u64) -> bool
        ensures { result ≡ is_some (fields_of (set_of self.now line) line) }
    {
        self.set(line).holds(line)
    }

    /// Whether the line is in the cache or its set has a free way, as gem5's `cacheAvail`. It takes no memory.
    pub fn avail(&self, line: u64) -> bool
        ensures answer { result ≡ available self.now line }
        ensures lawful { IsCache self.now }
    {
        let set = self.set(line);
        set.holds(line) || set.len() < self.ways as usize
    }

    /// The least recently used line of the set that a line belongs to, or `None` exactly where the line has a
    /// place already. It takes no memory.
    pub fn probe(&self, line: u64) -> Option<u64>
        ensures none { IsNone result ↔ IsTrue (available self.now line) }
        ensures least_recently_used { OnSome result (result ≡ option_map (λ l. l.0) (slice_get (set_of self.now line) 0)) }
    {
        let set = self.set(line);
        if set.holds(line) || set.len() < self.ways as usize {
            return None;
        }
        set.line_at(0)
    }

    /// Puts a line with its fields into its set, as the most recently used one, which is this project's own
    /// rule. Where it is refused the cache is as it was and the fields come back: first `AlreadyThere`, where
    /// the line is in the cache; then `SetFull`, where its set has as many lines as ways. It takes no memory.
    pub fn allocate(&mut self, line: u64, f: Fields) -> Result<(), (CacheFault, Fields)>
        ensures ok { OnOk result (self.new ≡ with_set self.old line (set_of self.old line ++ (line, f) ∷ [])) }

        ensures already_there { IsErrOf result (CacheFault.AlreadyThere, f) ↔ IsTrue (is_some (fields_of (set_of self.old line) line)) }
        ensures set_full { IsErrOf result (CacheFault.SetFull, f) ↔ (available self.old line ≡ false) }
        ensures never_not_there { IfErr result (λ refusal. refusal.0 ≢ CacheFault.NotThere) }
        ensures never_no_memory { IfErr result (λ refusal. refusal.0 ≢ CacheFault.NoMemory) }

        ensures refused { OnErr result (self.new ≡ self.old) }
        ensures given_back { IfErr result (λ refusal. refusal.1 ≡ f) }
    {
        let at = self.place(line);
        if self.sets[at].holds(line) {
            return Err((CacheFault::AlreadyThere, f));
        }
        if self.sets[at].len() >= self.ways as usize {
            return Err((CacheFault::SetFull, f));
        }
        self.sets[at].push(line, f);
        Ok(())
    }

    /// Takes a line out of the cache and gives its fields back, or `NotThere` exactly where it isn't in the
    /// cache, and then the cache is as it was. The other lines of its set stay in their order. It takes no
    /// memory.
    pub fn deallocate(&mut self, line: u64) -> Result<Fields, CacheFault>
        ensures fields { IfOk result (λ f. fields_of (set_of self.old line) line ≡ Some f) }
        ensures ok { OnOk result (self.new ≡ with_set self.old line (without_line (set_of self.old line) line)) }
        ensures not_there { OnErr result (fields_of (set_of self.old line) line ≡ None) }
        ensures only_not_there { IfErr result (λ fault. fault ≡ CacheFault.NotThere) }
        ensures refused { OnErr result (self.new ≡ self.old) }
    {
        let at = self.place(line);
        let Some(f) = self.sets[at].remove(line) else {
            return Err(CacheFault::NotThere);
        };
        Ok(f)
    }

    /// Makes a line the most recently used one of its set, in which the others stay in their order, or answers
    /// `NotThere` exactly where it isn't in the cache, and then the cache is as it was. It takes no memory.
    pub fn set_mru(&mut self, line: u64) -> Result<(), CacheFault>
        ensures ok { OnOk result (self.new ≡ with_set self.old line (made_recent (set_of self.old line) line)) }
        ensures there { IsOk result ↔ IsTrue (is_some (fields_of (set_of self.old line) line)) }
        ensures only_not_there { IfErr result (λ fault. fault ≡ CacheFault.NotThere) }
        ensures refused { OnErr result (self.new ≡ self.old) }
    {
        let at = self.place(line);
        if !self.sets[at].make_recent(line) {
            return Err(CacheFault::NotThere);
        }
        Ok(())
    }

    /// Writes one field of a line, in its place, and leaves the other fields and lines as they were, and the order of use. The
    /// value comes back exactly where the line isn't in the cache, and then the cache is as it was; a field that the line
    /// doesn't have isn't written. It takes no memory.
    pub fn set_field(&mut self, line: u64, field: u16, v: Value) -> Result<(), Value>
        ensures ok { OnOk result (IfSome (fields_of (set_of self.old line) line) (λ fields. self.new ≡ with_set self.old line (with_fields (set_of self.old line) line (slice_set fields field v)))) }
        ensures there { IsOk result ↔ IsSome (fields_of (set_of self.old line) line) }
        ensures refused { OnErr result (self.new ≡ self.old) }
        ensures given_back { IfErr result (λ back. back ≡ v) }
    {
        let at = self.place(line);
        self.sets[at].set_field(line, field, v)
    }

    /// The line at a place of the set that a line belongs to, counted from 0 and from the least recently used
    /// one, or `None` exactly where that set has no more lines than the place says. It takes no memory, and
    /// costs one step.
    pub fn used(&self, line: u64, i: u32) -> Option<u64>
        ensures { result ≡ option_map (λ l. l.0) (slice_get (set_of self.now line) i) }
    {
        self.set(line).line_at(i as usize)
    }

    /// How many lines the set of a line has. It takes no memory.
    pub fn set_len(&self, line: u64) -> usize
        ensures { result ≡ length (set_of self.now line) }
    {
        self.set(line).len()
    }

    /// Whether two lines belong to one set. It takes no memory.
    pub fn share_set(&self, a: u64, b: u64) -> bool
        ensures { result ≡ (a % length self.now.sets == b % length self.now.sets) }
    {
        self.place(a) == self.place(b)
    }

    /// How many lines a set may hold.
    pub fn ways(&self) -> u32
        ensures ways { result ≡ self.now.ways }
        ensures lawful { IsCache self.now }
    {
        self.ways
    }

    // Where the set of a line stands.
    fn place(&self, line: u64) -> usize
        ensures place { result ≡ line % length self.now.sets }
        ensures within { result < length self.now.sets }
    {
        match self.mask {
            Some(mask) => (line & mask) as usize,
            None => (line % self.sets.len() as u64) as usize,
        }
    }

    fn set(&self, line: u64) -> &UseOrder
        ensures { result.now.kept ≡ set_of self.now line }
    {
        &self.sets[self.place(line)]
    }
}

// So many sets without lines.
fn empty_sets(alloc: Global, sets: u32, ways: u32) -> Result<Vec<UseOrder>, NoMemory>
    ensures empty { IfOk result (λ all. lines_of all.items ≡ replicate sets []) }
    ensures places { IfOk result (λ all. All (HasPlaces ways) all.items) }
{
    let mut empty = Vec::with_capacity(alloc, sets as usize)?;
    for _set in 0..sets {
        empty.push(UseOrder::new(alloc, ways)?)?;
    }
    Ok(empty)
}

// The mask by which a line's set is found, where the number of sets is a power of two.
fn mask_of(sets: u64) -> Option<u64>
    ensures { IsMask sets result }
{
    if 1u64 << (sets.trailing_zeros() % 64) == sets {
        Some(sets - 1)
    } else {
        None
    }
}
