// A store as a run of a plan begins.
ghost use Rattle.std.specs.Prelude.{◌≡◌, Some, IfOk, IsSome, slice_get};
ghost use Rattle.slicc_plan.specs.Prelude.{machines_of, AreSizesOf, setup_of};
ghost use Rattle.ctl_face.specs.Prelude.{opening_ctl};
ghost use Rattle.ctl_store.specs.Kept.{ctl_of, machine_of, me_of};

use crate::store::Store;
use machine_setup::{setup, setup_is_machine};
use ruby_value::{NoMemory, Sizes};
use slicc_plan::Plan;
use std::alloc::Global;

impl Store {
    /// The store of a controller of the plan's machine of this number, with the sizes that a topology sets and with this actor
    /// number, as a run begins.
    pub fn new(
        alloc: Global,
        plan: &Plan,
        machine: u16,
        me: u32,
        sizes: &Sizes,
    ) -> Result<Store, NoMemory>
        requires machine { IsSome (slice_get (machines_of plan.now) machine) }
        requires sizes { AreSizesOf plan.now sizes.now }
        ensures machine { IfOk result (λ s. setup_of plan.now machine sizes.now ≡ Some (machine_of s)) }
        ensures me { IfOk result (λ s. me_of s ≡ me) }
        ensures opening { IfOk result (λ s. ctl_of s ≡ opening_ctl (machine_of s)) }
    {
        let _accepted = plan.trees();
        setup_is_machine();
        let Some(made) = setup(alloc, plan, machine, sizes)? else {
            unreachable!()
        };
        Store::of(alloc, made, me)
    }
}
