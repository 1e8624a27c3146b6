ghost use Rattle.std.specs.Prelude.{◌≡◌, ◌↔◌, length, slice_get, slice_set, map, IsOk, IfOk, IfErr, OnOk, OnErr, IsTrue};
ghost use Rattle.std.specs.Option.{option_copied};
ghost use Rattle.ruby_value.specs.DefaultValue.{default_value};
ghost use Rattle.ruby_value.specs.TakesValue.{TakesValue};

use crate::{Kind, NoMemory, Value, default_of};
use std::alloc::{AllocError, Global};
use std::marker::Model;
use std::mem;

/// The fields of a message or of a table's line, in the order of their declaration. A contract sees them as the
/// list of their values. A field keeps the kind of its first value, as SLICC's fields keep their types.
#[derive(Drop)]
pub struct Fields {
    values: Vec<Value>,
}

impl Model for Fields {
    ghost use Rattle.std.specs.Prelude.{List};
    ghost use Rattle.ruby_value.specs.declared.value.Value.{Value as FieldValue};

    ghost Value = { List FieldValue };

    ghost view = { λ f. f.values.items };
}

impl Fields {
    /// The fields with these values, in their order. It takes no memory.
    pub fn of(values: Vec<Value>) -> Fields
        ensures { result ≡ values.items }
    {
        Fields { values }
    }

    /// Fields of these kinds, in their order, as they are before anything is written to them. Their room is taken at once.
    pub fn of_kinds(alloc: Global, kinds: &[Kind]) -> Result<Fields, NoMemory>
        ensures { IfOk result (λ f. f ≡ map default_value kinds.now) }
    {
        let mut values = Vec::with_capacity(alloc, kinds.len())?;
        for kind in kinds {
            values.push(default_of(alloc, kind)?)?;
        }
        Ok(Fields { values })
    }

    /// The values, in their order. It takes no memory.
    pub fn into_vec(self) -> Vec<Value>
        ensures { result.items ≡ self }
    {
        self.values
    }

    /// How many fields there are.
    pub fn len(&self) -> usize
        ensures { result ≡ length self.now }
    {
        self.values.len()
    }

    pub fn is_empty(&self) -> bool
        ensures { IsTrue result ↔ (length self.now ≡ 0) }
    {
        self.values.is_empty()
    }

    /// The values, lent as a slice.
    pub fn as_slice(&self) -> &[Value]
        ensures { result.now ≡ self.now }
    {
        self.values.as_slice()
    }

    /// The value of the field at a place counted from 0, or `None` exactly where there is no such field.
    pub fn get(&self, i: u16) -> Option<&Value>
        ensures { option_copied result ≡ slice_get self.now i }
    {
        self.values.get(usize::from(i))
    }

    /// Writes the field at a place counted from 0, and leaves the others as they were. The value comes back
    /// exactly where there is no such field or the value that it has is of another kind; then nothing changes.
    /// It takes no memory.
    pub fn set(&mut self, i: u16, v: Value) -> Result<(), Value>
        ensures written { OnOk result (self.new ≡ slice_set self.old i v) }
        ensures refused { OnErr result (self.new ≡ self.old) }
        ensures given_back { IfErr result (λ back. back ≡ v) }
        ensures taken { IsOk result ↔ TakesValue self.old i v }
    {
        if !self.takes(i, &v) {
            return Err(v);
        }
        let _old = mem::replace(&mut self.values[usize::from(i)], v);
        Ok(())
    }

    /// Writes the field at a place counted from 0, and leaves the others as they were; where there is no such field, nothing
    /// changes. That the value is of the field's kind is for the caller to see to. It takes no memory.
    pub fn write(&mut self, i: u16, v: Value)
        ensures { self.new ≡ slice_set self.old i v }
    {
        if let Some(held) = self.values.get_mut(usize::from(i)) {
            *held = v;
        }
    }

    /// Whether the field at a place counted from 0 is there and has a value of the same kind as this one.
    pub fn takes(&self, i: u16, v: &Value) -> bool
        ensures { IsTrue result ↔ TakesValue self.now i v.now }
    {
        match self.get(i) {
            None => false,
            Some(held) => held.shares_kind(v),
        }
    }
}

impl Clone for Fields {
    ghost is_clone = { λ old new. new ≡ old };

    fn clone(&self) -> Result<Fields, AllocError> {
        Ok(Fields {
            values: self.values.clone()?,
        })
    }
}
