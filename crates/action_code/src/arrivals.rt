//! The ways to the places of a body.
ghost use Rattle.std.specs.Prelude.{◌≡◌, ◌<◌, ℕ, ◌∷◌, [], List, length, replicate, IfOk};
ghost use Rattle.action_code.specs.Table.{Holds};
ghost use Rattle.action_code.specs.Ways.{Way, arrive, no_arrival};

use crate::shape::Shape;
use ruby_base::NoMemory;
use ruby_value::Seq;
use std::alloc::Global;

/// What arrives at a place of a body.
#[derive(Drop)]
pub struct Arrival {
    /// The shape of the way from the least instruction, if a way leads there.
    pub shape: Option<Shape>,
    /// Whether another way has another shape.
    pub clash: bool,
}

/// Of a place to which no way leads.
pub fn no_arrival() -> Arrival
    ensures { result ≡ no_arrival }
{
    Arrival {
        shape: None,
        clash: false,
    }
}

// What arrives with one more way.
fn arrive(before: Arrival, s: Shape) -> Arrival
    ensures { result ≡ arrive before s }
{
    let Arrival { shape, clash } = before;
    match shape {
        None => Arrival {
            shape: Some(s),
            clash,
        },
        Some(first) => {
            let clash = clash || !first.is_same(&s);
            Arrival {
                shape: Some(first),
                clash,
            }
        }
    }
}

/// Of `count` places to which no way leads.
pub fn no_arrivals(alloc: Global, count: usize) -> Result<Seq<Arrival>, NoMemory>
    ensures { IfOk result (λ table. table ≡ replicate count no_arrival) }
{
    let mut places = Vec::with_capacity(alloc, count)?;
    for _i in 0..count {
        places.push(no_arrival())?;
    }
    Ok(Seq::of(places))
}

/// One more way, to the place of this number.
pub fn arrive_at(table: &mut Seq<Arrival>, to: usize, s: Shape)
    requires { to < length table.old }
    ensures holds { (ways : List Way) (from : ℕ) → Holds table.old ways from
        → Holds table.new (record { to = to; shape = s } ∷ ways) from }
    ensures count { length table.new ≡ length table.old }
{
    let before = table.replace(to, no_arrival());
    let _no_arrival = table.replace(to, arrive(before, s));
}
