ghost use Rattle.std.specs.Prelude.{◌≡◌, ◌<◌, ◌^◌, [], length, slice_get, Contains, IsTrue, IsOk, OnOk, OnErr, ◌↔◌};
ghost use Rattle.std.specs.List.Sorted.{IsStrictlyIncreasing};
ghost use Rattle.ruby_value.specs.LeastFrom.{least_from};
ghost use Rattle.ruby_value.specs.WithMember.{with_member};
ghost use Rattle.ruby_value.specs.WithoutMember.{without_member};

use crate::NoMemory;
use std::alloc::{AllocError, Global};
use std::marker::Model;

/// A set of numbers, as the ascending list of its members. A look-up costs about the logarithm of how many there are.
#[derive(Drop)]
pub(crate) struct FarMembers {
    members: Vec<u32>,
}

impl Model for FarMembers {
    ghost use Rattle.std.specs.Prelude.{ℕ, List};
    ghost use Rattle.std.specs.List.Sorted.{IsStrictlyIncreasing};

    ghost Value = { List ℕ };

    ghost view = { λ d. d.members.items };

    ghost invariant = { λ d. IsStrictlyIncreasing d.members.items };
}

impl FarMembers {
    pub(crate) fn new(alloc: Global) -> FarMembers
        ensures { result ≡ [] }
    {
        FarMembers {
            members: Vec::new(alloc),
        }
    }

    pub(crate) fn add(&mut self, m: u32) -> Result<(), NoMemory>
        ensures ok { OnOk result (self.new ≡ with_member self.old m) }
        ensures err { OnErr result (self.new ≡ self.old) }
        ensures there_already { Contains self.old m → IsOk result }
    {
        match self.members.binary_search(&m) {
            Ok(_) => Ok(()),
            Err(at) => Ok(self.members.insert(at, m)?),
        }
    }

    pub(crate) fn remove(&mut self, m: u32)
        ensures { self.new ≡ without_member self.old m }
    {
        if let Ok(at) = self.members.binary_search(&m) {
            let _ = self.members.remove(at);
        }
    }

    pub(crate) fn clear(&mut self)
        ensures { self.new ≡ [] }
    {
        self.members.clear();
    }

    pub(crate) fn len(&self) -> usize
        ensures len { result ≡ length self.now }
        ensures small { result < 2 ^ 63 }
        ensures increasing { IsStrictlyIncreasing self.now }
    {
        self.members.len()
    }

    pub(crate) fn contains(&self, m: u32) -> bool
        ensures { IsTrue result ↔ Contains self.now m }
    {
        self.members.binary_search(&m).is_ok()
    }

    fn at(&self, place: usize) -> Option<u32>
        ensures { result ≡ slice_get self.now place }
    {
        self.members.get(place).copied()
    }

    // The least member that is at least m.
    pub(crate) fn least_from(&self, m: u32) -> Option<u32>
        ensures { result ≡ least_from self.now m }
    {
        match self.members.binary_search(&m) {
            Ok(place) => self.at(place),
            Err(place) => self.at(place),
        }
    }
}

impl Clone for FarMembers {
    ghost is_clone = { λ old new. new ≡ old };

    fn clone(&self) -> Result<FarMembers, AllocError> {
        Ok(FarMembers {
            members: self.members.clone()?,
        })
    }
}

impl PartialEq for FarMembers {
    ghost use Rattle.std.specs.Prelude.{◌==◌};
    ghost use Rattle.std.specs.Cmp.Lexicographic.{pointwise};
    ghost use Rattle.std.proofs.Common.{rules};
    ghost use Rattle.std.specs.Cmp.Rules.{comparing};

    ghost eq = { pointwise ◌==◌ };

    ghost laws = { Prim.search (comparing, rules) };

    fn eq(&self, other: &FarMembers) -> bool {
        self.members == other.members
    }
}
