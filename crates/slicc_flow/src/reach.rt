//! Which functions calls reach.
ghost use Rattle.std.specs.Prelude.{◌≡◌, ◌<◌, ℕ, [], length, false, IfOk, OnOk, map};
ghost use Rattle.std.specs.List.{slice_index_or};
ghost use Rattle.slicc_plan.specs.declared.part.Body.{Body};
ghost use Rattle.slicc_plan.specs.Prelude.{is_reached, circle_at, circles_among, first_after};
ghost use Rattle.slicc_flow.specs.Marks.{found_in, is_unseen, next_calls, with_call, with_calls};

use ruby_base::{NoMemory, Seq};
use slicc_plan::{Body, Broken, Rule, earlier_broken};
use std::alloc::Global;

/// The functions that are found, and those among them in the order in which they were found.
#[derive(Drop)]
pub struct Found {
    pub seen: Seq<bool>,
    pub queue: Seq<u32>,
}

fn is_new(seen: &[bool], call: u32) -> bool
    ensures { result ≡ is_unseen seen.now call }
{
    match seen.get(call as usize) {
        Some(is_seen) => !*is_seen,
        None => false,
    }
}

fn add_call(found: &mut Found, call: u32) -> Result<(), NoMemory>
    ensures { OnOk result (found.new ≡ with_call found.old call) }
{
    if is_new(&found.seen, call) {
        found.seen.replace(call as usize, true);
        found.queue.push(call)?;
    }
    Ok(())
}

fn add_calls(found: &mut Found, calls: &[u32]) -> Result<(), NoMemory>
    ensures { OnOk result (found.new ≡ with_calls found.old calls.now) }
{
    for call in calls {
        add_call(found, *call)?;
    }
    Ok(())
}

// The calls of the function that was found at this place.
fn calls_next<'a>(functions: &'a [Body], queue: &[u32], place: usize) -> &'a [u32]
    ensures { result.now ≡ next_calls functions.now queue.now place }
{
    match queue.get(place) {
        Some(k) => match functions.get(*k as usize) {
            Some(b) => b.calls.as_slice(),
            None => &[],
        },
        None => &[],
    }
}

fn none_seen(alloc: Global, functions: &[Body]) -> Result<Seq<bool>, NoMemory>
    ensures { IfOk result (λ r. r ≡ map (λ (b : Body). false) functions.now) }
{
    let mut seen = Seq::new(alloc);
    for _body in functions {
        seen.push(false)?;
    }
    Ok(seen)
}

fn found_by(alloc: Global, functions: &[Body], calls: &[u32]) -> Result<Found, NoMemory>
    ensures { IfOk result (λ f. f ≡ found_in functions.now calls.now) }
{
    let seen = none_seen(alloc, functions)?;
    let mut found = Found {
        seen,
        queue: Seq::new(alloc),
    };
    add_calls(&mut found, calls)?;
    for place in 0..functions.len() {
        let next = calls_next(functions, &found.queue, place);
        add_calls(&mut found, next)?;
    }
    Ok(found)
}

/// Which of the functions these calls reach.
pub fn reached(alloc: Global, functions: &[Body], calls: &[u32]) -> Result<Seq<bool>, NoMemory>
    ensures size { IfOk result (λ r. length r ≡ length functions.now) }
    ensures reached { IfOk result (λ r. (k : ℕ) → k < length functions.now
        → slice_index_or r k false ≡ is_reached functions.now k calls.now) }
{
    let found = found_by(alloc, functions, calls)?;
    Ok(found.seen)
}

fn circle_of(
    alloc: Global,
    first: Option<Broken>,
    machine: u16,
    functions: &[Body],
    number: usize,
    b: &Body,
) -> Result<Option<Broken>, NoMemory>
    requires { number < length functions.now }
    ensures { IfOk result (λ r. r ≡ first_after first (circle_at machine functions.now number b.now)) }
{
    let reached = reached(alloc, functions, b.calls.as_slice())?;
    if !reached[number] {
        return Ok(first);
    }
    let broken = Broken {
        rule: Rule::CallCircle,
        machine,
        place: b.place,
        other: None,
    };
    Ok(earlier_broken(first, broken))
}

/// The first broken rule after those that functions of a machine break by calling each other in circles.
pub fn circles(
    alloc: Global,
    first: Option<Broken>,
    machine: u16,
    functions: &[Body],
) -> Result<Option<Broken>, NoMemory>
    ensures { IfOk result (λ r. r ≡ first_after first (circles_among machine functions.now)) }
{
    let mut first = first;
    for (number, b) in functions.iter().enumerate() {
        first = circle_of(alloc, first, machine, functions, number, b)?;
    }
    Ok(first)
}
