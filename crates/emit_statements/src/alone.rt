// Expressions as statements.
#![tactic(auto, using(emit_expressions::proofs::Adding::adds_two, crate::proofs::Pushing::adds_three, crate::proofs::Pushing::adds_four), unfolding(crate::specs::LineWrites::WritesLine, emit_expressions::specs::Writes::AddsIfOk, emit_expressions::specs::Writes::Writes))]

ghost use Rattle.std.specs.Prelude.{◌≡◌, None, codes, cond};
ghost use Rattle.std.specs.Str.{bytes_eq};
ghost use Rattle.std.specs.Option.{option_copied};
ghost use Rattle.body_meaning.specs.Prelude.{Reading, before_last, changes_receiver, reading};
ghost use Rattle.body_code.specs.declared.numbers.BodyNumbers.{BodyNumbers};
ghost use Rattle.body_code.specs.Prelude.{Ending, changed, dropped, evaluated, piece, piece_behind, written_back};
ghost use Rattle.body_code.specs.Statements.{built_in_alone, called_alone, last_alone, reference_set, reference_unset};
ghost use Rattle.emit_statements.specs.Prelude.{WritesLine, set_aside};

use crate::changes::{changed, written_back};
use crate::own::scratch_for;
use crate::triggers::triggered;
use action_code::Instr;
use body_code::{BodyNumbers, Left, Own};
use body_meaning::{Scope, changes_receiver};
use emit_expressions::{arguments, entry_kind, null, piece, piece_behind, tbe_kind};
use ruby_base::{NoMemory, Seq};
use ruby_symbols::function_named;
use ruby_value::Kind;
use slicc_ast::tree::{Expr, Suffix};
use std::alloc::Global;

// A value, in a local that nothing reads.
fn value_set_aside(code: &mut Seq<Instr>, k: Kind, own: &mut Own) -> Result<bool, NoMemory>
    ensures { WritesLine (set_aside (Left.Value k) own.old) result code.old code.new own.new }
{
    let slot = scratch_for(&mut own.locals, k)?;
    code.push(Instr::Store(slot))?;
    Ok(true)
}

// What was left, where it is a value.
fn set_aside(code: &mut Seq<Instr>, left: Left, own: &mut Own) -> Result<bool, NoMemory>
    ensures { WritesLine (set_aside left own.old) result code.old code.new own.new }
{
    match left {
        Left::Value(k) => value_set_aside(code, k, own),
        _ => Ok(true),
    }
}

// An expression whose value nothing reads.
fn dropped(
    alloc: Global,
    code: &mut Seq<Instr>,
    s: Scope<'_>,
    n: &BodyNumbers,
    e: &Expr,
    own: &mut Own,
) -> Result<bool, NoMemory>
    ensures { WritesLine
        (dropped (piece (reading s.entry) n.now own.old.names None e.now) own.old) result code.old
        code.new own.new }
{
    let left = piece(alloc, code, s, n, &own.names, None, e)?;
    set_aside(code, left, own)
}

// The same of one with suffixes behind it.
fn dropped_behind(
    alloc: Global,
    code: &mut Seq<Instr>,
    s: Scope<'_>,
    n: &BodyNumbers,
    inner: &Expr,
    suffixes: &[Suffix],
    own: &mut Own,
) -> Result<bool, NoMemory>
    ensures { WritesLine
        (dropped (piece_behind (reading s.entry) n.now own.old.names inner.now suffixes.now) own.old)
        result code.old code.new own.new }
{
    let left = piece_behind(alloc, code, s, n, &own.names, inner, suffixes)?;
    set_aside(code, left, own)
}

// A reference of the transition's, for what comes later.
fn reference_set(
    alloc: Global,
    code: &mut Seq<Instr>,
    s: Scope<'_>,
    n: &BodyNumbers,
    slot: u16,
    k: Kind,
    given: &[Expr],
    own: &Own,
) -> Result<bool, NoMemory>
    ensures { (ending : Ending)
        → WritesLine (reference_set (reading s.entry) n.now ending slot k given.now own.now) result
        code.old code.new own.now }
{
    let kinds = [k];
    arguments(alloc, code, s, n, &own.names, &kinds, given)?;
    code.push(Instr::Store(slot))?;
    Ok(true)
}

fn reference_unset(code: &mut Seq<Instr>, slot: u16, k: Kind, own: &Own) -> Result<bool, NoMemory>
    ensures { (s : Reading) (n : BodyNumbers) (ending : Ending)
        → WritesLine (reference_unset s n ending slot k own.now) result code.old code.new own.now }
{
    code.push(null(k))?;
    code.push(Instr::Store(slot))?;
    Ok(true)
}

// A call of a name that no function has; as an expression it is e.
fn built_in_alone(
    alloc: Global,
    code: &mut Seq<Instr>,
    s: Scope<'_>,
    n: &BodyNumbers,
    e: &Expr,
    name: &[u8],
    given: &[Expr],
    own: &mut Own,
) -> Result<bool, NoMemory>
    ensures { (ending : Ending)
        → WritesLine
        (built_in_alone (reading s.entry) n.now ending
        (piece (reading s.entry) n.now own.old.names None e.now) name.now given.now own.old) result
        code.old code.new own.new }
{
    if name == b"set_cache_entry".as_slice() {
        return reference_set(alloc, code, s, n, 1, entry_kind(s), given, own);
    }
    if name == b"unset_cache_entry".as_slice() {
        return reference_unset(code, 1, entry_kind(s), own);
    }
    if name == b"set_tbe".as_slice() {
        return reference_set(alloc, code, s, n, 2, tbe_kind(s), given, own);
    }
    if name == b"unset_tbe".as_slice() {
        return reference_unset(code, 2, tbe_kind(s), own);
    }
    if name == b"trigger".as_slice() {
        return triggered(alloc, code, s, n, given, own);
    }
    dropped(alloc, code, s, n, e, own)
}

// A call without a receiver.
fn called_alone(
    alloc: Global,
    code: &mut Seq<Instr>,
    s: Scope<'_>,
    n: &BodyNumbers,
    e: &Expr,
    name: &[u8],
    given: &[Expr],
    function: Option<u16>,
    own: &mut Own,
) -> Result<bool, NoMemory>
    ensures { (ending : Ending)
        → WritesLine
        (called_alone (reading s.entry) n.now ending
        (piece (reading s.entry) n.now own.old.names None e.now) name.now given.now own.old function)
        result code.old code.new own.new }
{
    match function {
        Some(_) => dropped(alloc, code, s, n, e, own),
        None => built_in_alone(alloc, code, s, n, e, name, given, own),
    }
}

// The suffixes before the last one.
fn before_last(suffixes: &[Suffix]) -> &[Suffix]
    ensures { result.now ≡ before_last suffixes.now }
{
    match suffixes.split_last() {
        Some((_, before)) => before,
        None => suffixes,
    }
}

// A call of a name on what is before it, which is the last of these suffixes.
fn method_alone(
    alloc: Global,
    code: &mut Seq<Instr>,
    s: Scope<'_>,
    n: &BodyNumbers,
    inner: &Expr,
    suffixes: &[Suffix],
    name: &[u8],
    given: &[Expr],
    own: &mut Own,
) -> Result<bool, NoMemory>
    ensures { (ending : Ending)
        → WritesLine
        (cond (changes_receiver name.now)
        (changed (reading s.entry) n.now ending inner.now (before_last suffixes.now) name.now given.now own.old)
        (cond (bytes_eq name.now (codes "writeCallback"))
        (written_back (reading s.entry) n.now ending given.now own.old)
        (dropped (piece_behind (reading s.entry) n.now own.old.names inner.now suffixes.now) own.old)))
        result code.old code.new own.new }
{
    if changes_receiver(name) {
        let before = before_last(suffixes);
        return changed(alloc, code, s, n, inner, before, name, given, own);
    }
    if name == b"writeCallback".as_slice() {
        return written_back(alloc, code, s, n, given, own);
    }
    dropped_behind(alloc, code, s, n, inner, suffixes, own)
}

fn last_alone(
    alloc: Global,
    code: &mut Seq<Instr>,
    s: Scope<'_>,
    n: &BodyNumbers,
    inner: &Expr,
    suffixes: &[Suffix],
    last: Option<&Suffix>,
    own: &mut Own,
) -> Result<bool, NoMemory>
    ensures { (ending : Ending)
        → WritesLine
        (last_alone (reading s.entry) n.now ending inner.now suffixes.now own.old
        (option_copied last.entry)) result code.old code.new own.new }
{
    let Some(last) = last else {
        return dropped_behind(alloc, code, s, n, inner, suffixes, own);
    };
    match last {
        Suffix::Method {
            name,
            arguments: given,
            ..
        } => {
            let items = given.items.as_slice();
            method_alone(alloc, code, s, n, inner, suffixes, &name.text, items, own)
        }
        _ => dropped_behind(alloc, code, s, n, inner, suffixes, own),
    }
}

/// An expression as a statement.
pub(crate) fn evaluated(
    alloc: Global,
    code: &mut Seq<Instr>,
    s: Scope<'_>,
    n: &BodyNumbers,
    e: &Expr,
    own: &mut Own,
) -> Result<bool, NoMemory>
    ensures { (ending : Ending)
        → WritesLine (evaluated (reading s.entry) n.now ending e.now own.old) result code.old
        code.new own.new }
{
    match e {
        Expr::Group(inner, _) => evaluated(alloc, code, s, n, inner.get(), own),
        Expr::Call {
            name,
            arguments: given,
            ..
        } => {
            let items = given.items.as_slice();
            let function = function_named(s.machine, &name.text);
            called_alone(alloc, code, s, n, e, &name.text, items, function, own)
        }
        Expr::Postfix {
            value: inner,
            suffixes,
            ..
        } => {
            let all = suffixes.as_slice();
            last_alone(alloc, code, s, n, inner.get(), all, all.last(), own)
        }
        _ => dropped(alloc, code, s, n, e, own),
    }
}
