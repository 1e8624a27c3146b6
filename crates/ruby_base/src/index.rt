ghost use Rattle.std.specs.Prelude.{◌≡◌, ◌≤◌, ◌^◌, ◌==◌, Some, [], length, IfOk, OnOk, OnErr};
ghost use Rattle.ruby_base.specs.Numbering.{AreDistinct, number_among, with_name};

use crate::NoMemory;
use std::alloc::Global;
use std::collections::HashMap;
use std::marker::Model;

/// Names, each once, in the order in which they were added first. A contract sees them as that list, and the number of a name
/// is its place there, counted from 0. A search takes the time of a hash of the name.
pub struct NameIndex {
    alloc: Global,
    names: Vec<Vec<u8>>,
    numbers: HashMap<Vec<u8>, u32>,
}

// It is written out, so that a crate above proves a call where one goes, and not how each of its parts goes.
impl Drop for NameIndex {
    fn drop(self) {
        let NameIndex {
            alloc: _,
            names: _,
            numbers: _,
        } = self;
    }
}

impl Model for NameIndex {
    ghost use Rattle.std.specs.Prelude.{ℕ, List, map, ◌≤◌, ◌^◌, length};
    ghost use Rattle.ruby_base.specs.Numbering.{AreDistinct};
    ghost use Rattle.ruby_base.specs.Finds.{Finds};

    ghost Value = { List (List ℕ) };

    ghost view = { λ x. map (λ name. name.items) x.names.items };

    ghost invariant = { λ x. (length x.names.items ≤ 2 ^ 32)
        × AreDistinct (map (λ name. name.items) x.names.items)
        × Finds x.numbers (map (λ name. name.items) x.names.items) };
}

impl NameIndex {
    /// No names. It takes no memory.
    pub fn new(alloc: Global) -> NameIndex
        ensures { result ≡ [] }
    {
        NameIndex {
            alloc,
            names: Vec::new(alloc),
            numbers: HashMap::new(alloc),
        }
    }

    /// How many names there are.
    pub fn len(&self) -> usize
        ensures len { result ≡ length self.now }
        ensures bound { length self.now ≤ 2 ^ 32 }
        ensures distinct { AreDistinct self.now }
    {
        self.names.len()
    }

    pub fn is_empty(&self) -> bool
        ensures { result ≡ (length self.now == 0) }
    {
        self.names.len() == 0
    }

    /// The number of a name, or `None` where it isn't there.
    #[tactic(auto, unfolding(crate::specs::Finds::Finds))]
    pub fn find(&self, name: &[u8]) -> Option<u32>
        ensures { result ≡ number_among self.now name.now }
    {
        self.numbers.get(name).copied()
    }

    /// The number of a name, which is added at the end where it isn't there. Without memory for it, and where there are
    /// numbers for no more names, the names are as they were.
    #[tactic(auto, unfolding(crate::specs::Finds::Finds))]
    pub fn add(&mut self, name: &[u8]) -> Result<u32, NoMemory>
        ensures number { IfOk result (λ number. number_among self.new name.now ≡ Some number) }
        ensures ok { OnOk result (self.new ≡ with_name self.old name.now) }
        ensures err { OnErr result (self.new ≡ self.old) }
    {
        if let Some(number) = self.find(name) {
            return Ok(number);
        }
        let number = self.names.len();
        if number > u32::MAX as usize {
            return Err(NoMemory);
        }
        let key = Vec::from_slice(self.alloc, name)?;
        let own = Vec::from_slice(self.alloc, name)?;
        self.names.push(own)?;
        match self.numbers.insert(key, number as u32) {
            Ok(_) => Ok(number as u32),
            Err(_) => {
                let _own = self.names.pop();
                return Err(NoMemory);
            }
        }
    }
}
