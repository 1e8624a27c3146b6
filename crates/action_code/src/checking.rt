//! The verification of programs: body by body and instruction by instruction, with what arrives at each place beside it.
ghost use Rattle.std.specs.Prelude.{◌≡◌, ◌<◌, ◌^◌, ◌+◌, ℕ, Some, IfOk, IsTrue, List, [], length, reverse, unwrap_or};
ghost use Rattle.action_code.specs.Answers.{Answers};
ghost use Rattle.action_code.specs.EachPlace.{broken_at, ways_before};
ghost use Rattle.action_code.specs.Fits.{is_numbered};
ghost use Rattle.action_code.specs.Rules.{broken_from, broken_in, first_broken, jumps_forward, stays_within};
ghost use Rattle.action_code.specs.Shapes.{empty_shape};
ghost use Rattle.action_code.specs.Table.{Holds};
ghost use Rattle.action_code.specs.Ways.{Way, inner_after, jump_way, made_after, next_way, shape_after, target, with_given, with_ways};

use crate::arrivals::{Arrival, arrive_at, no_arrival, no_arrivals};
use crate::instr::{Code, Instr};
use crate::program::Program;
use crate::rules::{continues, rule_broken, target};
use crate::shape::Shape;
use crate::sign::{Sign, sign_of};
use crate::stack::Stack;
use crate::tables::{buffer_at, machine_of};
use crate::verified::{CodeFault, Verified};
use ruby_base::NoMemory;
use ruby_value::{Kind, Seq};
use std::alloc::Global;

fn with_given(gives: Option<Kind>, mut stack: Stack<Kind>) -> Result<Stack<Kind>, NoMemory>
    ensures { IfOk result (λ s. s ≡ with_given gives stack) }
{
    if let Some(kind) = gives {
        stack.push(kind)?;
    }
    Ok(stack)
}

fn inner_after(
    p: &Program,
    c: &Code,
    mut messages: Stack<u16>,
    i: &Instr,
) -> Result<Stack<u16>, NoMemory>
    ensures { IfOk result (λ after. after ≡ inner_after p.now c.now messages i.now) }
{
    match i {
        Instr::Peek(buffer) => {
            if let Some(b) = buffer_at(machine_of(p, c), *buffer) {
                messages.push(b.message)?;
            }
        }
        Instr::Unpeek => messages.pop(1),
        _ => {}
    }
    Ok(messages)
}

fn made_after(mut messages: Stack<u16>, i: &Instr) -> Result<Stack<u16>, NoMemory>
    ensures { IfOk result (λ after. after ≡ made_after messages i.now) }
{
    match i {
        Instr::New(message) => messages.push(*message)?,
        Instr::Send(_) => messages.pop(1),
        _ => {}
    }
    Ok(messages)
}

// What is known after an instruction with this sign.
fn shape_after(p: &Program, c: &Code, s: Shape, i: &Instr, sg: &Sign) -> Result<Shape, NoMemory>
    ensures { IfOk result (λ after. after ≡ shape_after p.now c.now s i.now sg.now) }
{
    let Shape {
        mut stack,
        inner,
        made,
    } = s;
    stack.pop(sg.takes.len());
    Ok(Shape {
        stack: with_given(sg.gives, stack)?,
        inner: inner_after(p, c, inner, i)?,
        made: made_after(made, i)?,
    })
}

// The way of a jump, if there is one.
fn jump_on(
    alloc: Global,
    table: &mut Seq<Arrival>,
    at: u32,
    to: Option<u32>,
    s: &Shape,
) -> Result<(), NoMemory>
    requires { IsTrue (jumps_forward (length table.old) at to) }
    ensures holds { (ways : List Way) (from : ℕ) → Holds table.old ways from
        → IfOk result (λ _. Holds table.new (jump_way to s.now ways) from) }
    ensures count { length table.new ≡ length table.old }
{
    if let Some(to) = to {
        let s = Shape::copied(alloc, s)?;
        arrive_at(table, to as usize, s);
    }
    Ok(())
}

// The way to the next instruction, if there is one.
fn step_on(table: &mut Seq<Arrival>, at: u32, goes: bool, s: Shape)
    requires { IsTrue goes → at + 1 < length table.old }
    ensures holds { (ways : List Way) (from : ℕ) → Holds table.old ways from
        → Holds table.new (next_way goes at s ways) from }
    ensures count { length table.new ≡ length table.old }
{
    if goes {
        arrive_at(table, at as usize + 1, s);
    }
}

// The ways from an instruction with this sign.
fn send_on(
    alloc: Global,
    p: &Program,
    c: &Code,
    at: u32,
    i: &Instr,
    s: Shape,
    sg: &Sign,
    table: &mut Seq<Arrival>,
) -> Result<(), NoMemory>
    requires jumps { IsTrue (jumps_forward (length table.old) at (target i.now)) }
    requires stays { IsTrue (stays_within (length table.old) at i.now) }
    ensures holds { (ways : List Way) (from : ℕ) → Holds table.old ways from
        → IfOk result (λ _. Holds table.new (with_ways at i.now
        (shape_after p.now c.now s i.now sg.now) ways) from) }
    ensures count { length table.new ≡ length table.old }
{
    let after = shape_after(p, c, s, i, sg)?;
    jump_on(alloc, table, at, target(i), &after)?;
    step_on(table, at, continues(i), after);
    Ok(())
}

// That a rule is broken at this place.
fn broken(alloc: Global, rule: u8, body: u32, at: u32, s: &Shape) -> Result<(), CodeFault>
    ensures { Answers (Some (record {
      rule = rule;
      body = body;
      at = at;
      kept = reverse s.now.stack;
    })) result }
{
    let kept = Seq::copied(alloc, s.stack.as_slice())?;
    Err(CodeFault::Broken {
        rule,
        body,
        at,
        kept,
    })
}

fn shape_or_empty(alloc: Global, shape: Option<Shape>) -> Shape
    ensures { result ≡ unwrap_or shape empty_shape }
{
    match shape {
        Some(s) => s,
        None => Shape::empty(alloc),
    }
}

// Judges the instruction at a place, and keeps the ways from it.
fn check_at(
    alloc: Global,
    p: &Program,
    body: u32,
    c: &Code,
    at: u32,
    table: &mut Seq<Arrival>,
) -> Result<(), CodeFault>
    requires at { at < length c.now.instructions }
    requires count { length table.old ≡ length c.now.instructions }
    requires holds { Holds table.old (ways_before p.now body c.now at) at }
    ensures judged { Answers (broken_at p.now body c.now at) result }
    ensures holds { IfOk result (λ _. Holds table.new (ways_before p.now body c.now (at + 1))
        (at + 1)) }
    ensures count { length table.new ≡ length table.old }
{
    let i = &c.instructions[at as usize];
    let Arrival { shape, clash } = table.replace(at as usize, no_arrival());
    let s = shape_or_empty(alloc, shape);
    let sg = sign_of(alloc, p, body, c, &s, i)?;
    let count = c.instructions.len();
    match rule_broken(machine_of(p, c), count, at as usize, clash, &s, &sg, i) {
        Some(rule) => broken(alloc, rule, body, at, &s),
        None => {
            send_on(alloc, p, c, at, i, s, &sg, table)?;
            Ok(())
        }
    }
}

// Judges the instructions of a body.
fn check_instructions(
    alloc: Global,
    p: &Program,
    body: u32,
    c: &Code,
    mut table: Seq<Arrival>,
) -> Result<(), CodeFault>
    requires few { length c.now.instructions < 2 ^ 32 }
    requires count { length table ≡ length c.now.instructions }
    requires holds { Holds table [] 0 }
    ensures { Answers (broken_from p.now body c.now [] 0 c.now.instructions) result }
{
    let count = c.instructions.len() as u32;
    for at in 0..count {
        match check_at(alloc, p, body, c, at, &mut table) {
            Ok(()) => {}
            Err(fault) => return Err(fault),
        }
    }
    Ok(())
}

fn check_body(alloc: Global, p: &Program, body: u32, c: &Code) -> Result<(), CodeFault>
    requires { length c.now.instructions < 2 ^ 32 }
    ensures { Answers (broken_in p.now body c.now c.now.instructions) result }
{
    if c.instructions.is_empty() {
        return Err(CodeFault::Broken {
            rule: 6,
            body,
            at: 0,
            kept: Seq::new(alloc),
        });
    }
    let table = no_arrivals(alloc, c.instructions.len())?;
    check_instructions(alloc, p, body, c, table)
}

fn check_bodies(alloc: Global, p: &Program) -> Result<(), CodeFault>
    requires { IsTrue (is_numbered p.now) }
    ensures { Answers (first_broken p.now) result }
{
    let count = p.bodies.len() as u32;
    for body in 0..count {
        match check_body(alloc, p, body, &p.bodies[body as usize]) {
            Ok(()) => {}
            Err(fault) => return Err(fault),
        }
    }
    Ok(())
}

/// Verifies a program: it is verified exactly where it fits, and else the first broken rule is answered with its place.
pub fn verify(alloc: Global, p: Program) -> Result<Verified, CodeFault>
    requires { IsTrue (is_numbered p) }
    ensures answer { Answers (first_broken p) result }
    ensures program { IfOk result (λ v. v ≡ p) }
{
    match check_bodies(alloc, &p) {
        Ok(()) => Ok(Verified::of(p)),
        Err(fault) => Err(fault),
    }
}
