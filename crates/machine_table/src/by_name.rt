//! Numbers by names.
ghost use Rattle.std.specs.Prelude.{◌≡◌, length};

use ruby_base::{NameIndex, NoMemory, Seq};
use std::alloc::Global;

/// Numbers that are found by names. A search takes the time of a hash of the name.
pub struct Numbers {
    names: NameIndex,
    // The number of each name.
    numbers: Seq<u16>,
    ghost same_length: { length numbers ≡ length names },
}

// It is written out, so that a function that lets one go proves a call there, and not how each of its parts goes.
impl Drop for Numbers {
    fn drop(self) {
        let Numbers {
            names: _,
            numbers: _,
        } = self;
    }
}

impl Numbers {
    ghost use Rattle.std.specs.Prelude.{ℕ, List, None, OnOk};
    ghost use Rattle.machine_table.specs.Found.{IsFoundWith, found_by};

    /// Nothing is found by any name. It takes no memory.
    pub fn new(alloc: Global) -> Numbers
        ensures { (text : List ℕ) → found_by result text ≡ None }
    {
        Numbers {
            names: NameIndex::new(alloc),
            numbers: Seq::new(alloc),
        }
    }

    pub fn find(&self, name: &[u8]) -> Option<u16>
        ensures { result ≡ found_by self.now name.now }
    {
        match self.names.find(name) {
            None => None,
            Some(place) => self.numbers.get(place as usize).copied(),
        }
    }

    /// Gives a name its number, if it has none yet.
    pub fn add(&mut self, name: &[u8], number: u16) -> Result<(), NoMemory>
        ensures { OnOk result (IsFoundWith self.old name.now number self.new) }
    {
        if self.names.find(name).is_some() {
            return Ok(());
        }
        let last = self.numbers.len();
        self.numbers.push(number)?;
        match self.names.add(name) {
            Ok(_) => Ok(()),
            Err(e) => {
                self.numbers.remove(last);
                Err(e)
            }
        }
    }
}
