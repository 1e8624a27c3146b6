// The lines of a listing of action code.
ghost use Rattle.std.specs.Prelude.{◌≡◌, ◌∷◌, ◌++◌, [], codes, decimal, map};
ghost use Rattle.std.specs.Fmt.{signed_decimal};
ghost use Rattle.hex.specs.Hex.{encode_lower};
ghost use Rattle.ruby_outside.specs.Prelude.{IsWritten};
ghost use Rattle.trace_print.specs.Adding.{IsAdded};
ghost use Rattle.trace_print.specs.Entries.{fault_words};
ghost use Rattle.trace_print.specs.Lines.{spaced};
ghost use Rattle.trace_print.specs.Code.{body_line, body_lines, code_lines, controllers_in, instr_line, instr_name, lines_from, operand_words, reference_words, truth_digit, value_words};
ghost use Rattle.trace_print.specs.Operands.{words_of};
ghost use Rattle.trace_print.specs.Pieces.{AreLinesPut, IsLinePut, text_of};

use crate::entries::fault_word;
use crate::line::{Held, Word, add_spaced, add_words, begin_line, end_line, write_line};
use action_code::{Code, Instr, Verified};
use arrayvec::ArrayVec;
use itoa::Buffer;
use ruby_outside::Sink;
use ruby_value::{Block, Fault, NetDest, Ref, Value};

/// The operands of an instruction.
#[derive(Clone, Copy)]
pub(crate) enum Operands<'a> {
    Nothing,
    Number(u32),
    Numbers(u16, u16),
    /// A value, and the number of the structure beside it.
    Value(&'a Value, u16),
    Fault(&'a Fault),
}

fn instr_name(i: &Instr) -> &'static [u8]
    ensures { result.now ≡ instr_name i.now }
{
    match i {
        Instr::Push(_, _) => b"push",
        Instr::Load(_) => b"load",
        Instr::Store(_) => b"store",
        Instr::Add => b"add",
        Instr::Sub => b"sub",
        Instr::Mul => b"mul",
        Instr::Neg => b"neg",
        Instr::Not => b"not",
        Instr::Lt => b"lt",
        Instr::Le => b"le",
        Instr::Eq => b"eq",
        Instr::Jump(_) => b"jump",
        Instr::Unless(_) => b"unless",
        Instr::Get(_) => b"get",
        Instr::Set(_) => b"set",
        Instr::Peek(_) => b"peek",
        Instr::Infield(_) => b"infield",
        Instr::Unpeek => b"unpeek",
        Instr::New(_) => b"new",
        Instr::Outfield(_) => b"outfield",
        Instr::Setout(_) => b"setout",
        Instr::Send(_) => b"send",
        Instr::Op(_, _) => b"op",
        Instr::Call(_) => b"call",
        Instr::Trigger(_) => b"trigger",
        Instr::Stop(_) => b"stop",
        Instr::Ret => b"ret",
    }
}

fn operands_of(i: &Instr) -> Operands<'_>
    ensures { words_of result ≡ operand_words i.now }
{
    match i {
        Instr::Push(v, structure) => Operands::Value(v, *structure),
        Instr::Op(n, on) => Operands::Numbers(*n, *on),
        Instr::Stop(fault) => Operands::Fault(fault),
        Instr::Jump(n) | Instr::Unless(n) | Instr::Call(n) => Operands::Number(*n),
        Instr::Load(n)
        | Instr::Store(n)
        | Instr::Get(n)
        | Instr::Set(n)
        | Instr::Peek(n)
        | Instr::Infield(n)
        | Instr::New(n)
        | Instr::Outfield(n)
        | Instr::Setout(n)
        | Instr::Send(n)
        | Instr::Trigger(n) => Operands::Number(*n as u32),
        Instr::Add
        | Instr::Sub
        | Instr::Mul
        | Instr::Neg
        | Instr::Not
        | Instr::Lt
        | Instr::Le
        | Instr::Eq
        | Instr::Unpeek
        | Instr::Ret => Operands::Nothing,
    }
}

fn truth_digit(b: bool) -> &'static [u8]
    ensures { result.now ≡ truth_digit b }
{
    if b { b"1" } else { b"0" }
}

fn add_int<S: Sink>(sink: &mut S, line: &mut Held, n: i64) -> bool
    ensures { IsAdded S.writes sink.old line.old.items
        (spaced (codes "Int" ∷ signed_decimal n ∷ [])) result sink.new line.new.items }
{
    let mut digits = Buffer::new();
    let n = Word::Bytes(digits.format(n).as_bytes());
    add_words(sink, line, &[Word::Bytes(b"Int"), n])
}

// The controllers of a set, each after a space.
fn add_each<S: Sink>(sink: &mut S, line: &mut Held, members: &NetDest) -> bool
    ensures { IsAdded S.writes sink.old line.old.items
        (spaced (map decimal (controllers_in members.now))) result sink.new line.new.items }
{
    let _count = members.count();
    let mut from: u64 = 0;
    while from < NUMBERS {
        let Some(m) = members.least_from(from as u32) else {
            return true;
        };
        if !add_spaced(sink, line, &Word::Number(m as u64)) {
            return false;
        }
        from = m as u64 + 1;
    }
    true
}

fn add_set<S: Sink>(sink: &mut S, line: &mut Held, members: &NetDest) -> bool
    ensures { IsAdded S.writes sink.old line.old.items
        (spaced (codes "Dest" ∷ map decimal (controllers_in members.now))) result sink.new
        line.new.items }
{
    if !add_spaced(sink, line, &Word::Bytes(b"Dest")) {
        return false;
    }
    add_each(sink, line, members)
}

fn add_block<S: Sink>(sink: &mut S, line: &mut Held, block: &Block) -> bool
    ensures { IsAdded S.writes sink.old line.old.items
        (spaced (codes "Block" ∷ encode_lower block.now.bytes ∷ [])) result sink.new
        line.new.items }
{
    let mut digits = [0; 128];
    hex::encode_to_slice(block.bytes.as_slice(), &mut digits).unwrap();
    add_words(sink, line, &[Word::Bytes(b"Block"), Word::Bytes(&digits)])
}

// A reference of a kind of this name.
fn add_reference<S: Sink>(
    sink: &mut S,
    line: &mut Held,
    kind: &[u8],
    r: Option<Ref>,
    structure: u16,
) -> bool
    ensures { IsAdded S.writes sink.old line.old.items
        (spaced (kind.now ∷ reference_words r structure)) result sink.new line.new.items }
{
    let kind = Word::Bytes(kind);
    match r {
        None => add_words(sink, line, &[kind, Word::Number(structure as u64)]),
        Some(r) => add_words(
            sink,
            line,
            &[kind, Word::Number(r.table as u64), Word::Number(r.line)],
        ),
    }
}

fn add_value<S: Sink>(sink: &mut S, line: &mut Held, v: &Value, structure: u16) -> bool
    ensures { IsAdded S.writes sink.old line.old.items (spaced (value_words v.now structure)) result
        sink.new line.new.items }
{
    match v {
        Value::Bool(b) => add_words(
            sink,
            line,
            &[Word::Bytes(b"Bool"), Word::Bytes(truth_digit(*b))],
        ),
        Value::Int(n) => add_int(sink, line, *n),
        Value::Enum(enumeration, member) => add_words(
            sink,
            line,
            &[
                Word::Bytes(b"Enum"),
                Word::Number(*enumeration as u64),
                Word::Number(*member as u64),
            ],
        ),
        Value::Addr(a) => add_words(sink, line, &[Word::Bytes(b"Addr"), Word::Address(*a)]),
        Value::Machine(controller) => add_words(
            sink,
            line,
            &[Word::Bytes(b"Machine"), Word::Number(*controller as u64)],
        ),
        Value::Dest(members) => add_set(sink, line, members),
        Value::Block(block) => add_block(sink, line, block),
        Value::Entry(r) => add_reference(sink, line, b"Entry", *r, structure),
        Value::Tbe(r) => add_reference(sink, line, b"Tbe", *r, structure),
    }
}

fn add_fault<S: Sink>(sink: &mut S, line: &mut Held, fault: &Fault) -> bool
    ensures { IsAdded S.writes sink.old line.old.items (spaced (fault_words fault.now)) result
        sink.new line.new.items }
{
    let word = Word::Bytes(fault_word(fault));
    let Fault::Error(given) = fault else {
        return add_words(sink, line, &[word]);
    };
    add_words(sink, line, &[word, Word::Bytes(given.as_slice())])
}

fn add_operands<S: Sink>(sink: &mut S, line: &mut Held, operands: Operands<'_>) -> bool
    ensures { IsAdded S.writes sink.old line.old.items (spaced (words_of operands.entry)) result
        sink.new line.new.items }
{
    match operands {
        Operands::Nothing => add_words(sink, line, &[]),
        Operands::Number(n) => add_words(sink, line, &[Word::Number(n as u64)]),
        Operands::Numbers(n, on) => add_words(
            sink,
            line,
            &[Word::Number(n as u64), Word::Number(on as u64)],
        ),
        Operands::Value(v, structure) => add_value(sink, line, v, structure),
        Operands::Fault(fault) => add_fault(sink, line, fault),
    }
}

fn write_instr<S: Sink>(sink: &mut S, at: usize, i: &Instr) -> bool
    ensures { IsLinePut S.writes sink.old (instr_line at i.now) result sink.new }
{
    let mut line = ArrayVec::new();
    let place = Word::Number(at as u64);
    let name = Word::Bytes(instr_name(i));
    if !begin_line(sink, &mut line, b" ", &[place, name]) {
        return false;
    }
    if !add_operands(sink, &mut line, operands_of(i)) {
        return false;
    }
    end_line(sink, &mut line)
}

fn write_instrs<S: Sink>(sink: &mut S, instructions: &[Instr]) -> bool
    ensures { AreLinesPut S.writes sink.old (lines_from (λ at i. instr_line at i ∷ []) 0
        instructions.now) result sink.new }
{
    for (at, i) in instructions.iter().enumerate() {
        if !write_instr(sink, at, i) {
            return false;
        }
    }
    true
}

fn write_body<S: Sink>(sink: &mut S, body: usize, c: &Code) -> bool
    ensures { AreLinesPut S.writes sink.old (body_lines body c.now) result sink.new }
{
    if !write_line(sink, b"body", &[Word::Number(body as u64)]) {
        return false;
    }
    write_instrs(sink, c.instructions.as_slice())
}

fn write_bodies<S: Sink>(sink: &mut S, bodies: &[Code]) -> bool
    ensures { AreLinesPut S.writes sink.old (lines_from body_lines 0 bodies.now) result sink.new }
{
    for (body, c) in bodies.iter().enumerate() {
        if !write_body(sink, body, c) {
            return false;
        }
    }
    true
}

/// Writes the listing of verified code: for each body a line with its number and one for each instruction, with its place, its name and
/// its operands. It answers whether all were written whole, and writes nothing after a line that wasn't, of which a beginning is
/// written.
pub fn write_code<S: Sink>(sink: &mut S, code: &Verified) -> bool
    ensures pieces { AreLinesPut S.writes sink.old (code_lines code.now) result sink.new }
    ensures written { IsWritten (S.written sink.old) (S.faults sink.old)
        (text_of (code_lines code.now)) result (S.written sink.new) (S.faults sink.new) }
{
    write_bodies(sink, code.program().bodies.as_slice())
}

// How many numbers of 32 bits there are.
const NUMBERS: u64 = 4_294_967_296;
