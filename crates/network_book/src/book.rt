ghost use Rattle.std.specs.Prelude.{◌≡◌, ◌<◌, IfOk, OnErr};
ghost use Rattle.std.specs.List.{All};
ghost use Rattle.network_book.specs.Numbers.{IsSmall};
ghost use Rattle.network_book.specs.Taking.{IsTakenIn};

use crate::{RunPlan, Taken};
use ruby_base::NoMemory;
use ruby_world::World;
use sequencer::Driver;
use std::alloc::Global;
use std::marker::Model;
use turn_lock::Kept;

/// A world with its history, as a turn lock keeps it. A contract sees it as the world.
pub struct Book<D: Driver> {
    pub(crate) world: World<D>,
}

impl<D: Driver> Drop for Book<D> {
    fn drop(self) {
        let Book { world: _ } = self;
    }
}

impl<D: Driver> Model for Book<D> {
    ghost use Rattle.std.specs.List.{All};
    ghost use Rattle.ruby_world.specs.Worlds.{WorldView, world_view_code};
    ghost use Rattle.network_book.specs.Numbers.{IsSmall};

    ghost Value = { WorldView D };

    ghost coded = { world_view_code D.code };

    ghost view = { λ b. b.world };

    ghost invariant = { λ b. All IsSmall b.world.history };
}

impl<D: Driver> Book<D> {
    pub(crate) fn into_world(self) -> World<D>
        ensures world { result ≡ self }
        ensures small { All IsSmall result.history }
    {
        let Book { world } = self;
        world
    }
}

impl<D: Driver> Kept for Book<D> {
    ghost use Rattle.network_book.specs.Numbers.{numbers_of};
    ghost use Rattle.network_book.specs.Plans.{plan_of};

    type Plan = RunPlan<D>;

    ghost plan = { λ b. plan_of b };

    ghost history = { λ b. numbers_of b.history };
}

/// What there is to do for a worker: it takes a controller that is due and that nobody holds; where there is none, it waits for
/// those that are held, or makes the turn. Without memory nothing has changed.
pub(crate) fn take_next<D: Driver>(
    alloc: Global,
    world: &mut World<D>,
    worker: u32,
) -> Result<Taken, NoMemory>
    ensures ok { IfOk result (IsTakenIn D.drive worker world.old world.new) }
    ensures err { OnErr result (world.new ≡ world.old) }
{
    if world.verdict().is_some() {
        return Ok(Taken::Ended);
    }
    if let Some(c) = world.due() {
        let held = world.take(worker, c)?;
        return Ok(Taken::Held(held));
    }
    if world.any_held() {
        return Ok(Taken::Rest);
    }
    world.turn(alloc, worker)?;
    Ok(Taken::Turned)
}
