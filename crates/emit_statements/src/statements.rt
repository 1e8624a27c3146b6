// Statements as code.
ghost use Rattle.std.specs.Prelude.{IfOk};
ghost use Rattle.slicc_ast.specs.declared.tree.statement.If.{out-If};
ghost use Rattle.body_meaning.specs.Prelude.{reading};
ghost use Rattle.body_code.specs.Prelude.{all_lines, if_line, in_block, line};
ghost use Rattle.body_code.specs.Statements.{chosen, enqueued, peeked};
ghost use Rattle.emit_statements.specs.Prelude.{WritesArm, WritesLine, ending_of, line_or, named_block, others_by, otherwise_by};

use crate::alone::evaluated;
use crate::arms::{close_arm, with_jump};
use crate::changes::assigned;
use crate::ending::Ending;
use crate::messages::{fields_read, opened, outer_of, sent};
use crate::own::{bind, names_copied};
use crate::plain::{
    asserted, closed, declared, failed, first_passed, has_more, message_at, passed, passes,
    returned, stalled, structure_at,
};
use action_code::Instr;
use body_code::{BodyNumbers, Home, Own};
use body_meaning::Scope;
use emit_expressions::{hole, home_of, piece};
use ruby_base::{NoMemory, Seq};
use slicc_ast::tree::{Expr, If, Name, Stmt};
use std::alloc::Global;

/// Statements one after another, up to one that ends the body; and whether a run goes on after them.
#[cycle(lines)]
pub fn all_lines(
    alloc: Global,
    code: &mut Seq<Instr>,
    s: Scope<'_>,
    n: &BodyNumbers,
    ending: Ending,
    statements: &[Stmt],
    own: &mut Own,
) -> Result<bool, NoMemory>
    ensures { WritesLine
        (all_lines (reading s.entry) n.now (ending_of ending) statements.now own.old) result
        code.old code.new own.new }
{
    for first in statements {
        let goes_on = line(alloc, code, s, n, ending, first, own)?;
        if !goes_on {
            return Ok(false);
        }
    }
    Ok(true)
}

// A block, whose names are gone after it.
#[cycle(lines)]
fn in_block(
    alloc: Global,
    code: &mut Seq<Instr>,
    s: Scope<'_>,
    n: &BodyNumbers,
    ending: Ending,
    statements: &[Stmt],
    own: &mut Own,
) -> Result<bool, NoMemory>
    ensures { WritesLine
        (in_block (all_lines (reading s.entry) n.now (ending_of ending) statements.now) own.old)
        result code.old code.new own.new }
{
    let names = names_copied(alloc, &own.names)?;
    let goes_on = all_lines(alloc, code, s, n, ending, statements, own)?;
    own.names = names;
    Ok(goes_on)
}

// A block that begins with one more name.
#[cycle(lines)]
fn named_block(
    alloc: Global,
    code: &mut Seq<Instr>,
    s: Scope<'_>,
    n: &BodyNumbers,
    ending: Ending,
    name: &[u8],
    home: Home,
    statements: &[Stmt],
    own: &mut Own,
) -> Result<bool, NoMemory>
    ensures { WritesLine
        (named_block (reading s.entry) n.now (ending_of ending) name.now home statements.now own.old)
        result code.old code.new own.new }
{
    let names = names_copied(alloc, &own.names)?;
    bind(alloc, &mut own.names, name, home)?;
    let goes_on = all_lines(alloc, code, s, n, ending, statements, own)?;
    own.names = names;
    Ok(goes_on)
}

// `peek(port, ..) { statements }`
#[cycle(lines)]
fn peeked(
    alloc: Global,
    code: &mut Seq<Instr>,
    s: Scope<'_>,
    n: &BodyNumbers,
    ending: Ending,
    port: &Name,
    statements: &[Stmt],
    own: &mut Own,
) -> Result<bool, NoMemory>
    ensures { WritesLine
        (peeked (reading s.entry) n.now (ending_of ending) port.now.text
        (all_lines (reading s.entry) n.now (ending_of ending) statements.now) own.old)
        result code.old code.new own.new }
{
    let Some(at) = message_at(s, port) else {
        return Ok(true);
    };
    code.push(Instr::Peek(at.0))?;
    let name = b"in_msg".as_slice();
    let home = Home::Inner(at.1);
    let goes_on = named_block(alloc, code, s, n, ending, name, home, statements, own)?;
    closed(code, goes_on, Instr::Unpeek)?;
    Ok(goes_on)
}

// `enqueue(port, .., latency) { statements }`
#[cycle(lines)]
fn enqueued(
    alloc: Global,
    code: &mut Seq<Instr>,
    s: Scope<'_>,
    n: &BodyNumbers,
    ending: Ending,
    port: &Name,
    latency: &Option<Expr>,
    statements: &[Stmt],
    own: &mut Own,
) -> Result<bool, NoMemory>
    ensures { WritesLine
        (enqueued (reading s.entry) n.now (ending_of ending) port.now.text latency.now
        (all_lines (reading s.entry) n.now (ending_of ending) statements.now) own.old)
        result code.old code.new own.new }
{
    let Some(at) = message_at(s, port) else {
        return Ok(true);
    };
    let Some(t) = structure_at(s, at.1) else {
        return Ok(true);
    };
    let outer = outer_of(latency, home_of(&own.names, b"out_msg".as_slice()));
    fields_read(code, s, outer)?;
    opened(code, at.1, t)?;
    let name = b"out_msg".as_slice();
    let home = Home::Made(at.1);
    let goes_on = named_block(alloc, code, s, n, ending, name, home, statements, own)?;
    if !goes_on {
        return Ok(false);
    }
    sent(alloc, code, s, n, at.0, latency, outer, own)
}

// By a condition a block. Where more comes after it and a run goes on, a jump is left open that passes that.
#[cycle(lines)]
fn arm(
    alloc: Global,
    code: &mut Seq<Instr>,
    s: Scope<'_>,
    n: &BodyNumbers,
    ending: Ending,
    statements: &[Stmt],
    condition: &Expr,
    more: bool,
    own: &mut Own,
) -> Result<Option<usize>, NoMemory>
    ensures { IfOk result (λ jump. WritesArm
        (λ rest. chosen (reading s.entry) n.now (ending_of ending) condition.now
        (all_lines (reading s.entry) n.now (ending_of ending) statements.now) rest own.old)
        more jump code.old code.new own.new) }
{
    piece(alloc, code, s, n, &own.names, None, condition)?;
    let test = hole(code)?;
    let goes_on = in_block(alloc, code, s, n, ending, statements, own)?;
    let has_jump = passes(goes_on, more);
    close_arm(code, test, has_jump)
}

// What an `if` does where its condition doesn't hold.
#[cycle(lines)]
fn others(
    alloc: Global,
    code: &mut Seq<Instr>,
    s: Scope<'_>,
    n: &BodyNumbers,
    ending: Ending,
    i: &If,
    own: &mut Own,
) -> Result<bool, NoMemory>
    ensures { WritesLine
        (line_or
        (others_by (reading s.entry) n.now (ending_of ending)
        (otherwise_by (reading s.entry) n.now (ending_of ending) (out-If i.now).otherwise)
        (out-If i.now).others) own.old)
        result code.old code.new own.new }
{
    let has_last = i.otherwise.is_some();
    let mut jumps: Seq<usize> = Seq::new(alloc);
    let arms = i.others.as_slice();
    for (k, e) in arms.iter().enumerate() {
        let more = has_more(k + 1, arms.len(), has_last);
        let jump = arm(
            alloc,
            code,
            s,
            n,
            ending,
            &e.then.statements,
            &e.condition,
            more,
            own,
        )?;
        with_jump(&mut jumps, jump)?;
    }
    match &i.otherwise {
        None => passed(code, jumps.as_slice(), true),
        Some(b) => {
            let other = in_block(alloc, code, s, n, ending, &b.statements, own)?;
            passed(code, jumps.as_slice(), other)
        }
    }
}

#[cycle(lines)]
fn if_line(
    alloc: Global,
    code: &mut Seq<Instr>,
    s: Scope<'_>,
    n: &BodyNumbers,
    ending: Ending,
    i: &If,
    own: &mut Own,
) -> Result<bool, NoMemory>
    ensures { WritesLine (if_line (reading s.entry) n.now (ending_of ending) i.now own.old) result
        code.old code.new own.new }
{
    let more = has_more(0, i.others.len(), i.otherwise.is_some());
    let jump = arm(
        alloc,
        code,
        s,
        n,
        ending,
        &i.then.statements,
        &i.condition,
        more,
        own,
    )?;
    let other = others(alloc, code, s, n, ending, i, own)?;
    first_passed(code, jump, other)
}

#[cycle(lines)]
fn line(
    alloc: Global,
    code: &mut Seq<Instr>,
    s: Scope<'_>,
    n: &BodyNumbers,
    ending: Ending,
    statement: &Stmt,
    own: &mut Own,
) -> Result<bool, NoMemory>
    ensures { WritesLine (line (reading s.entry) n.now (ending_of ending) statement.now own.old)
        result code.old code.new own.new }
{
    match statement {
        Stmt::Declare {
            kind,
            name,
            value: e,
            ..
        } => declared(alloc, code, s, n, ending, kind, name, e, own),
        Stmt::Assign {
            place,
            value: e,
            ..
        } => assigned(alloc, code, s, n, place, e, own),
        Stmt::Evaluate(e, _) => evaluated(alloc, code, s, n, e, own),
        Stmt::Return(e, _) => returned(alloc, code, s, n, ending, e, own),
        Stmt::If(i) => if_line(alloc, code, s, n, ending, i, own),
        Stmt::Peek { port, body, .. } => {
            let statements = body.statements.as_slice();
            peeked(alloc, code, s, n, ending, port, statements, own)
        }
        Stmt::Enqueue {
            port,
            latency,
            body,
            ..
        } => {
            let statements = body.statements.as_slice();
            enqueued(alloc, code, s, n, ending, port, latency, statements, own)
        }
        Stmt::StallAndWait { port, address, .. } => {
            stalled(alloc, code, s, n, ending, port, address, own)
        }
        Stmt::CheckAllocate(..) => Ok(true),
        Stmt::Print { .. } => Ok(true),
        Stmt::Error(text, _) => failed(alloc, code, text, own),
        Stmt::Assert(condition, _) => asserted(alloc, code, s, n, ending, condition, own),
    }
}
