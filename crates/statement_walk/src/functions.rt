// Calls of a machine's functions, and bodies whose statements may call them.
ghost use Rattle.std.specs.Prelude.{◌≡◌, ◌++◌, [], IfOk, OnOk, length, slice_get};
ghost use Rattle.std.specs.Option.{option_copied};
ghost use Rattle.acts.specs.Prelude.{DoesAs, itself};
ghost use Rattle.body_meaning.specs.Prelude.{answer_of, bound_formals, calls_of, calls_within, frame_of, function_called, function_run, with_formal, ended, all_done, reading};
ghost use Rattle.body_walk.specs.Prelude.{CallsDo};
ghost use Rattle.statement_walk.specs.Prelude.{HasFew};

use crate::all_done;
use crate::bodies::body_of_function;
use acts::{BodyFault, Local, NoMemory, Trouble, Value};
use body_meaning::{Bound, Flow, Frame, Scope, Thing};
use ruby_base::{Seq, Text};
use ruby_symbols::{FormalSymbol, FunctionSymbol, MachineSymbols};
use slicc_ast::tree::{Block, Stmt};
use std::alloc::Global;

fn answer_of(flow: Flow) -> Thing
    ensures { result ≡ answer_of flow }
{
    match flow {
        Flow::WentOn => Thing::Nothing,
        Flow::Returned(t) => t,
        Flow::Triggered(t) => Thing::Trigger(t),
    }
}

fn add_formal(
    alloc: Global,
    names: &mut Seq<Bound>,
    formal: &FormalSymbol,
    v: Value,
) -> Result<(), NoMemory>
    ensures { OnOk result (names.new ≡ names.old ++ with_formal formal.now.name v []) }
{
    match &formal.name {
        None => Ok(()),
        Some(name) => names.push(Bound {
            name: Text::copied(alloc, name)?,
            thing: Thing::Value(v),
        }),
    }
}

fn bound_formals(
    alloc: Global,
    formals: &[FormalSymbol],
    arguments: Vec<Value>,
) -> Result<Seq<Bound>, NoMemory>
    ensures { IfOk result (λ names. names ≡ bound_formals formals.now arguments.items) }
{
    let mut names = Seq::new(alloc);
    let mut rest = formals;
    for v in arguments {
        if let [formal, others @ ..] = rest {
            add_formal(alloc, &mut names, formal, v)?;
            rest = others;
        }
    }
    Ok(names)
}

fn frame_of(alloc: Global, f: &FunctionSymbol, arguments: Seq<Value>) -> Result<Frame, NoMemory>
    ensures { IfOk result (λ frame. frame ≡ frame_of f.now arguments) }
{
    Ok(Frame {
        names: bound_formals(alloc, &f.formals, arguments.into_vec())?,
        about: None,
    })
}

fn function_run<T: Local, F: Fn(u16, Seq<Value>, &mut T) -> Result<Thing, Trouble>>(
    alloc: Global,
    s: Scope<'_>,
    depth: u16,
    calls: &F,
    mut frame: Frame,
    block: Option<&Block>,
    local: &mut T,
) -> Result<Thing, Trouble>
    requires callable { F.IsAlwaysCallable calls.now }
    requires does { CallsDo T.view F.Fn calls.now (calls_within (reading s) depth) }
    ensures { DoesAs itself
        (function_run (reading s.entry) (calls_within (reading s.entry) depth) frame (option_copied block.entry))
        result (T.view local.old) (T.view local.new) }
{
    let Some(block) = block else {
        return Err(Trouble::from(BodyFault::Reference));
    };
    let flow = all_done(alloc, s, depth, calls, &block.statements, &mut frame, local)?;
    Ok(answer_of(flow))
}

fn function_called<T: Local, F: Fn(u16, Seq<Value>, &mut T) -> Result<Thing, Trouble>>(
    alloc: Global,
    s: Scope<'_>,
    depth: u16,
    calls: &F,
    arguments: Seq<Value>,
    number: u16,
    local: &mut T,
) -> Result<Thing, Trouble>
    requires callable { F.IsAlwaysCallable calls.now }
    requires does { CallsDo T.view F.Fn calls.now (calls_within (reading s) depth) }
    ensures { DoesAs itself
        (function_called (reading s.entry) (calls_within (reading s.entry) depth) arguments
        (slice_get s.entry.machine.now.functions number))
        result (T.view local.old) (T.view local.new) }
{
    let Some(f) = s.machine.functions.get(usize::from(number)) else {
        return Err(Trouble::from(BodyFault::Reference));
    };
    let frame = frame_of(alloc, f, arguments)?;
    function_run(
        alloc,
        s,
        depth,
        calls,
        frame,
        body_of_function(s.tree, f),
        local,
    )
}

/// Calls the function of this number of the machine with these arguments, where calls may be this many inside of one another.
pub fn call_function<T: Local>(
    alloc: Global,
    s: Scope<'_>,
    depth: u16,
    number: u16,
    arguments: Seq<Value>,
    local: &mut T,
) -> Result<Thing, Trouble>
    ensures { DoesAs itself (calls_within (reading s.entry) depth number arguments) result (T.view local.old)
        (T.view local.new) }
{
    if depth == 0 {
        return Err(Trouble::from(BodyFault::Reference));
    }
    let inner = depth - 1;
    let calls = move |k: u16, values: Seq<Value>, to: &mut T| -> Result<Thing, Trouble>
        ensures { DoesAs itself (calls_within (reading s.entry) inner k values) result (T.view to.old)
            (T.view to.new) }
    { call_function(alloc, s, inner, k, values, to) };
    function_called(alloc, s, inner, &calls, arguments, number, local)
}

fn depth_of(m: &MachineSymbols) -> u16
    requires { HasFew m.now }
    ensures { result ≡ length m.now.functions }
{
    m.functions.len() as u16
}

// Calls the function of this number of the machine.
pub(crate) fn called<T: Local>(
    alloc: Global,
    s: Scope<'_>,
    number: u16,
    arguments: Seq<Value>,
    local: &mut T,
) -> Result<Thing, Trouble>
    requires few { HasFew s.machine.now }
    ensures { DoesAs itself (calls_of (reading s.entry) number arguments) result (T.view local.old)
        (T.view local.new) }
{
    call_function(alloc, s, depth_of(s.machine), number, arguments, local)
}

// Does the statements of a body, which may call the functions of the machine.
pub(crate) fn body_done<T: Local>(
    alloc: Global,
    s: Scope<'_>,
    statements: &[Stmt],
    frame: &mut Frame,
    local: &mut T,
) -> Result<Flow, Trouble>
    requires few { HasFew s.machine.now }
    ensures { DoesAs (ended frame.new)
        (all_done (reading s.entry) (calls_of (reading s.entry)) statements.now frame.old) result
        (T.view local.old) (T.view local.new) }
{
    let depth = depth_of(s.machine);
    let calls = move |k: u16, values: Seq<Value>, to: &mut T| -> Result<Thing, Trouble>
        ensures { DoesAs itself (calls_within (reading s.entry) depth k values) result (T.view to.old)
            (T.view to.new) }
    { call_function(alloc, s, depth, k, values, to) };
    all_done(alloc, s, depth, &calls, statements, frame, local)
}
