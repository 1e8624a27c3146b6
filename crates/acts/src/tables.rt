// Acts on a controller's tables, each done where the machine serves it.
ghost use Rattle.acts.specs.Lent.{lent};
ghost use Rattle.acts.specs.Prelude.{Allocate, Avail, Deallocate, Free, Get, Lookup, Probe, Set, Touch, act, DoesAs, itself};

use crate::serving::{is_line, not_served, serves_get, serves_set};
use ctl_face::{Fault, Local, Ref, Trouble, Value, deallocates, is_cache, is_tbe_table, looks_up};

/// Does `Get`: the value of a field of the line that a reference names.
pub fn get<T: Local>(local: &T, r: &Ref, field: u16) -> Result<Value, Trouble>
    ensures { DoesAs itself (act (Get r.now field)) result (T.view local.now) (T.view local.now) }
{
    if !serves_get(local.machine(), r, field) {
        return Err(not_served());
    }
    local.get(r, field)
}

/// Does `Get` without taking memory: the value of a field of the line that a reference names, lent.
pub fn field<'a, T: Local>(local: &'a T, r: &Ref, field: u16) -> Result<&'a Value, Trouble>
    ensures { DoesAs lent (act (Get r.now field)) result (T.view local.now) (T.view local.now) }
{
    if !serves_get(local.machine(), r, field) {
        return Err(not_served());
    }
    match local.field(r, field) {
        Some(value) => Ok(value),
        None => Err(Trouble::Fault(Fault::Reference)),
    }
}

/// Does `Set`: writes a field of the line that a reference names.
pub fn set<T: Local>(local: &mut T, r: &Ref, field: u16, value: Value) -> Result<(), Trouble>
    ensures { DoesAs itself (act (Set r.now field value)) result (T.view local.old) (T.view local.new) }
{
    if !serves_set(local.machine(), r, field, &value) {
        return Err(not_served());
    }
    local.set(r, field, value)
}

/// Does `Lookup`: the reference to a line, if it is there.
pub fn lookup<T: Local>(local: &T, table: u16, line: u64) -> Result<Option<Ref>, Trouble>
    ensures { DoesAs itself (act (Lookup table line)) result (T.view local.now) (T.view local.now) }
{
    if !is_line(line) || !looks_up(local.machine(), table) {
        return Err(not_served());
    }
    Ok(local.lookup(table, line))
}

/// Does `Avail`: whether a cache has the line, or a place for it.
pub fn avail<T: Local>(local: &T, table: u16, line: u64) -> Result<bool, Trouble>
    ensures { DoesAs itself (act (Avail table line)) result (T.view local.now) (T.view local.now) }
{
    if !is_line(line) || !is_cache(local.machine(), table) {
        return Err(not_served());
    }
    Ok(local.avail(table, line))
}

/// Does `Probe`: the line that a cache would replace.
pub fn probe<T: Local>(local: &T, table: u16, line: u64) -> Result<u64, Trouble>
    ensures { DoesAs itself (act (Probe table line)) result (T.view local.now) (T.view local.now) }
{
    if !is_line(line) || !is_cache(local.machine(), table) {
        return Err(not_served());
    }
    local.probe(table, line)
}

/// Does `Allocate`: puts a line into a table, and answers the reference to it.
pub fn allocate<T: Local>(local: &mut T, table: u16, line: u64) -> Result<Ref, Trouble>
    ensures { DoesAs itself (act (Allocate table line)) result (T.view local.old) (T.view local.new) }
{
    if !is_line(line) || !looks_up(local.machine(), table) {
        return Err(not_served());
    }
    local.allocate(table, line)
}

/// Does `Deallocate`: takes a line out of a table.
pub fn deallocate<T: Local>(local: &mut T, table: u16, line: u64) -> Result<(), Trouble>
    ensures { DoesAs itself (act (Deallocate table line)) result (T.view local.old) (T.view local.new) }
{
    if !is_line(line) || !deallocates(local.machine(), table) {
        return Err(not_served());
    }
    local.deallocate(table, line)
}

/// Does `Touch`: makes a line of a cache the most recently used one of its set.
pub fn touch<T: Local>(local: &mut T, table: u16, line: u64) -> Result<(), Trouble>
    ensures { DoesAs itself (act (Touch table line)) result (T.view local.old) (T.view local.new) }
{
    if !is_line(line) || !is_cache(local.machine(), table) {
        return Err(not_served());
    }
    local.touch(table, line)
}

/// Does `Free`: how many more lines a TBE table may hold.
pub fn free<T: Local>(local: &T, table: u16) -> Result<u64, Trouble>
    ensures { DoesAs itself (act (Free table)) result (T.view local.now) (T.view local.now) }
{
    if !is_tbe_table(local.machine(), table) {
        return Err(not_served());
    }
    Ok(local.free(table))
}
