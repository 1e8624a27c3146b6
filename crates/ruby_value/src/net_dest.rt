ghost use Rattle.std.specs.Prelude.{◌≡◌, ◌<◌, [], length, Contains, IsTrue, IsOk, OnOk, OnErr, ◌↔◌};
ghost use Rattle.std.specs.List.Sorted.{IsStrictlyIncreasing};
ghost use Rattle.ruby_value.specs.LeastFrom.{least_from};
ghost use Rattle.ruby_value.specs.WithMember.{with_member};
ghost use Rattle.ruby_value.specs.WithoutMember.{without_member};

use crate::NoMemory;
use crate::far_members::FarMembers;
use std::alloc::{AllocError, Global};
use std::marker::Model;

/// A set of controllers, as the destination of a message, which is what gem5's SLICC calls `NetDest`. A contract
/// sees it as the ascending list of their numbers, in which none comes twice; that they are numbered over all
/// machines is this project's own rule. Those below 64 are kept in one word, in which a call takes one step, and the
/// others in a list, in which a look-up costs about the logarithm of how many there are.
pub struct NetDest {
    near: u64,
    far: FarMembers,
}

// It is written out, so that a crate above proves a call where one goes, and not how each of its parts goes.
impl Drop for NetDest {
    fn drop(self) {
        let NetDest { near: _, far: _ } = self;
    }
}

impl Model for NetDest {
    ghost use Rattle.std.specs.Prelude.{ℕ, List, All, ◌++◌, ◌<◌, ◌≤◌, ◌^◌};
    ghost use Rattle.ruby_value.specs.Bits.{bits_of};

    ghost Value = { List ℕ };

    ghost view = { λ d. bits_of d.near ++ d.far };

    ghost invariant = { λ d. (d.near < 2 ^ 64) × All (λ m. 64 ≤ m) d.far };
}

impl NetDest {
    /// The empty set. It takes no memory.
    pub fn new(alloc: Global) -> NetDest
        ensures { result ≡ [] }
    {
        NetDest {
            near: 0,
            far: FarMembers::new(alloc),
        }
    }

    /// Puts a controller into the set, which doesn't change where it is there already. Without memory for it
    /// the set is as it was; a controller that is there takes none, and neither does one below 64.
    pub fn add(&mut self, m: u32) -> Result<(), NoMemory>
        ensures ok { OnOk result (self.new ≡ with_member self.old m) }
        ensures err { OnErr result (self.new ≡ self.old) }
        ensures there_already { Contains self.old m → IsOk result }
        ensures near { m < 64 → IsOk result }
    {
        if m < 64 {
            self.near |= 1 << m;
            return Ok(());
        }
        self.far.add(m)
    }

    /// Takes a controller out of the set, which doesn't change where it isn't there. It takes no memory.
    pub fn remove(&mut self, m: u32)
        ensures { self.new ≡ without_member self.old m }
    {
        if m < 64 {
            self.near &= !(1 << m);
        } else {
            self.far.remove(m);
        }
    }

    /// Takes out all controllers. It takes no memory.
    pub fn clear(&mut self)
        ensures { self.new ≡ [] }
    {
        self.near = 0;
        self.far.clear();
    }

    /// How many controllers there are.
    pub fn count(&self) -> u64
        ensures value { result ≡ length self.now }
        ensures increasing { IsStrictlyIncreasing self.now }
    {
        u64::from(self.near.count_ones()) + self.far.len() as u64
    }

    /// Whether the controller is in the set.
    pub fn contains(&self, m: u32) -> bool
        ensures { IsTrue result ↔ Contains self.now m }
    {
        if m < 64 {
            return (self.near >> m) & 1 == 1;
        }
        self.far.contains(m)
    }

    /// The least controller of the set whose number is at least m, if there is one. So a caller goes over the set in
    /// increasing order, beginning at 0 and then after each one found.
    pub fn least_from(&self, m: u32) -> Option<u32>
        ensures { result ≡ least_from self.now m }
    {
        if m >= 64 {
            return self.far.least_from(m);
        }
        let left = self.near >> m;
        if left == 0 {
            return self.far.least_from(m);
        }
        Some(m + left.trailing_zeros())
    }
}

impl Clone for NetDest {
    ghost is_clone = { λ old new. new ≡ old };

    fn clone(&self) -> Result<NetDest, AllocError> {
        Ok(NetDest {
            near: self.near,
            far: self.far.clone()?,
        })
    }
}

impl PartialEq for NetDest {
    ghost use Rattle.std.specs.Prelude.{◌==◌};
    ghost use Rattle.std.specs.Cmp.Lexicographic.{pointwise};
    ghost use Rattle.std.proofs.Common.{rules};
    ghost use Rattle.std.specs.Cmp.Rules.{comparing};

    ghost eq = { pointwise ◌==◌ };

    ghost laws = { Prim.search (comparing, rules) };

    fn eq(&self, other: &NetDest) -> bool {
        self.near == other.near && self.far == other.far
    }
}

impl Eq for NetDest {
    ghost use Rattle.std.proofs.Common.{rules};
    ghost use Rattle.std.specs.Cmp.Rules.{comparing};

    ghost laws = { Prim.search (comparing, rules) };
}
