//! The sizes of functions, with those of what they call.
ghost use Rattle.std.specs.Prelude.{◌≡◌, ℕ, ◌<◌, length, IfOk, map, ◌++◌};
ghost use Rattle.std.specs.List.{slice_index_or};
ghost use Rattle.slicc_plan.specs.Prelude.{function_size, size_with, large_among, large_at, first_after};
ghost use Rattle.slicc_flow.specs.Prelude.{AreSizes, capped, next_sizes};

use ruby_base::{NoMemory, Seq};
use slicc_plan::{Body, Broken, Rule, earlier_broken};
use std::alloc::Global;

/// One more than the largest size that is allowed; what is larger is taken for this.
pub const CAP: u64 = 100_001;

fn size_at(sizes: &[u64], function: u32) -> u64
    ensures { result ≡ capped (slice_index_or sizes.now function 0) }
{
    match sizes.get(function as usize) {
        Some(size) => (*size).min(CAP),
        None => 0,
    }
}

/// A body's size where these are the sizes of the functions.
pub fn size_in(sizes: &[u64], b: &Body) -> u64
    ensures { result ≡ capped (size_with (λ c. slice_index_or sizes.now c 0) b.now) }
{
    let mut size = b.size.min(CAP);
    for call in b.calls.as_slice() {
        size = (size + size_at(sizes, *call)).min(CAP);
    }
    size
}

// The sizes with calls counted one deeper than in these.
fn deeper_sizes(alloc: Global, functions: &[Body], sizes: &[u64]) -> Result<Seq<u64>, NoMemory>
    ensures { IfOk result (λ r. r ≡ next_sizes functions.now sizes.now) }
{
    let mut deeper = Seq::new(alloc);
    for b in functions {
        deeper.push(size_in(sizes, b))?;
    }
    Ok(deeper)
}

/// The sizes of functions, with calls counted as deep as there are functions.
pub fn function_sizes(alloc: Global, functions: &[Body]) -> Result<Seq<u64>, NoMemory>
    ensures { IfOk result (λ r. AreSizes functions.now (length functions.now) r) }
{
    let mut sizes = Seq::new(alloc);
    for depth in 0..functions.len() {
        sizes = deeper_sizes(alloc, functions, &sizes)?;
    }
    Ok(sizes)
}

// The largest size of a body.
const LARGEST: u64 = 100_000;

fn large_of(
    first: Option<Broken>,
    machine: u16,
    functions: &[Body],
    sizes: &[u64],
    b: &Body,
) -> Option<Broken>
    requires { AreSizes functions.now (length functions.now) sizes.now }
    ensures { result ≡ first_after first (large_at machine functions.now b.now) }
{
    if size_in(sizes, b) <= LARGEST {
        return first;
    }
    let broken = Broken {
        rule: Rule::BodyTooLarge,
        machine,
        place: b.place,
        other: None,
    };
    earlier_broken(first, broken)
}

fn large_among(
    first: Option<Broken>,
    machine: u16,
    functions: &[Body],
    sizes: &[u64],
    bodies: &[Body],
) -> Option<Broken>
    requires { AreSizes functions.now (length functions.now) sizes.now }
    ensures { result ≡ first_after first (large_among machine functions.now bodies.now) }
{
    let mut first = first;
    for b in bodies {
        first = large_of(first, machine, functions, sizes, b);
    }
    first
}

/// The first broken rule after those that bodies of a machine break by being too large.
pub fn large_bodies(
    alloc: Global,
    first: Option<Broken>,
    machine: u16,
    functions: &[Body],
    actions: &[Body],
    ports: &[Body],
) -> Result<Option<Broken>, NoMemory>
    ensures { IfOk result (λ r. r ≡ first_after first (large_among machine functions.now functions.now
        ++ large_among machine functions.now actions.now ++ large_among machine functions.now ports.now)) }
{
    let sizes = function_sizes(alloc, functions)?;
    let first = large_among(first, machine, functions, &sizes, functions);
    let first = large_among(first, machine, functions, &sizes, actions);
    Ok(large_among(first, machine, functions, &sizes, ports))
}
