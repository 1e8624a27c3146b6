//! What the arguments of calls have to be, whether what a call changes may be written, and the types that a machine has of its own: of its
//! lines, its states and its events.
ghost use Rattle.std.specs.Prelude.{◌≡◌, ◌++◌, ◌∷◌, [], map, OnOk, slice_get, find};
ghost use Rattle.std.specs.Option.{option_map, option_copied};
ghost use Rattle.std.specs.List.{flat_map};
ghost use Rattle.slicc_plan.specs.Buffers.{listed};
ghost use Rattle.slicc_plan.specs.Prelude.{formal_wanted, line_wanted, wanted_by, wanted_for, one_of, is_told, may_write, may_write_field, no_field, not_writable, wrong_change, first_of, events_type, states_type, structure_on, type_of_line, named_declarations, states, is_events, is_states};
ghost use Rattle.declared_types.specs.Prelude.{argument_of, receiver_of, change_of};
ghost use Rattle.body_types.specs.Prelude.{IsEnvironment, environment_of, AreLines, type_if, wanted_of, all_given_of, given_of, typed_of, meaning_of, written_of};
ghost use Rattle.slicc_plan.specs.Declarations.{enumeration};

use body_types::{
    Environment, Given, Lines, Meaning, Typed, Wanted, Written, like_it, unless, value_of_type,
};
use declared_types::{Argument, Change, KnownType, Receiver, Scope};
use ruby_base::{NoMemory, Seq};
use slicc_ast::tree::{Decl, Enumeration, Formal, Machine, States, Structure};
use slicc_plan::{Broken, BuiltInType, Rule, Span};

fn line_wanted<'a>(t: Option<KnownType<'a>>) -> Wanted<'a>
    ensures { wanted_of result ≡ line_wanted (type_if t.entry) }
{
    match t {
        None => Wanted::OnlyNoLine,
        Some(t) => Wanted::OneOf(Some(t), None),
    }
}

/// What an argument of a built-in call on that has to be, where the machine has such an argument.
pub fn wanted_for<'a>(lines: Lines<'a>, on: Receiver, a: Argument) -> Option<Wanted<'a>>
    requires { AreLines lines }
    ensures { listed (option_map wanted_of result) ≡ wanted_for lines.entry.machine.now (receiver_of on) (argument_of a) }
{
    match a {
        Argument::ValueOf(b) => Some(Wanted::OneOf(Some(KnownType::BuiltIn(b)), None)),
        Argument::NewLine => {
            Some(Wanted::NewLineOf(type_of_line(lines, structure_on(lines, on))))
        }
        Argument::AddressOrLine => {
            Some(Wanted::AddressOrLineOf(type_of_line(lines, structure_on(lines, on))))
        }
        Argument::CacheLine => Some(line_wanted(type_of_line(lines, lines.entry))),
        Argument::TbeLine => Some(line_wanted(type_of_line(lines, lines.tbe))),
        Argument::OwnCacheLine => own_line(type_of_line(lines, lines.entry)),
        Argument::OwnTbeLine => own_line(type_of_line(lines, lines.tbe)),
        Argument::Event => Some(Wanted::OneOf(None, events_type(lines.machine))),
    }
}

// A reference to a line of this type, where there is one.
fn own_line<'a>(t: Option<KnownType<'a>>) -> Option<Wanted<'a>>
    ensures { listed (option_map wanted_of result) ≡ listed (option_map (λ u. one_of (u ∷ [])) (type_if t.entry)) }
{
    match t {
        None => None,
        Some(t) => Some(Wanted::OneOf(Some(t), None)),
    }
}

/// Adds what the arguments of a built-in call on that have to be.
pub fn add_wanted<'a>(
    lines: Lines<'a>,
    on: Receiver,
    arguments: &[Argument],
    wanted: &mut Seq<Wanted<'a>>,
) -> Result<(), NoMemory>
    requires { AreLines lines }
    ensures { OnOk result (map wanted_of wanted.new ≡ map wanted_of wanted.old ++ wanted_by lines.entry.machine.now (receiver_of on) (map argument_of arguments.now)) }
{
    for a in arguments {
        if let Some(w) = wanted_for(lines, on, *a) {
            wanted.push(w)?;
        }
    }
    Ok(())
}

fn formal_wanted<'a>(env: Environment<'_, 'a>, f: &Formal) -> Wanted<'a>
    requires { IsEnvironment env }
    ensures { wanted_of result ≡ formal_wanted (environment_of env.entry) f.now }
{
    let t = env.scopes.type_in(env.scope, f.kind.text.as_slice());
    like_it(value_of_type(env.lines, t))
}

/// Adds what the arguments of a function with these formals have to be.
pub fn add_formals<'a>(
    env: Environment<'_, 'a>,
    formals: &[Formal],
    wanted: &mut Seq<Wanted<'a>>,
) -> Result<(), NoMemory>
    requires { IsEnvironment env }
    ensures { OnOk result (map wanted_of wanted.new ≡ map wanted_of wanted.old ++ map (formal_wanted (environment_of env.entry)) formals.now) }
{
    for f in formals {
        wanted.push(formal_wanted(env, f))?;
    }
    Ok(())
}

/// Whether it is told already that something is wrong with what has this meaning.
pub fn is_told(meaning: Meaning) -> bool
    ensures { result ≡ is_told (meaning_of meaning.entry) }
{
    matches!(meaning, Meaning::Unknown | Meaning::NewLine(_))
}

/// Whether it may be written.
pub fn may_write(written: Written) -> bool
    ensures { result ≡ may_write (written_of written) }
{
    matches!(written, Written::Local | Written::Field)
}

fn may_write_field(written: Written) -> bool
    ensures { result ≡ may_write_field (written_of written) }
{
    matches!(written, Written::Field)
}

/// What is told where that is written.
pub fn not_writable(at: Span, t: Typed) -> Option<Broken>
    ensures { result ≡ first_of (not_writable at (typed_of t.entry)) }
{
    unless(
        is_told(t.meaning) || may_write(t.written),
        Rule::NotWritable,
        at,
    )
}

fn no_field(at: Span, g: Option<Given>) -> Option<Broken>
    ensures { result ≡ first_of (no_field at (option_map given_of g.entry)) }
{
    match g {
        None => None,
        Some(g) => unless(
            is_told(g.typed.meaning) || may_write_field(g.typed.written),
            Rule::NotWritable,
            at,
        ),
    }
}

fn second<'a>(given: &[Given<'a>]) -> Option<Given<'a>>
    ensures { result ≡ slice_get given.now 1 }
{
    given.get(1).copied()
}

/// What is told of a call on that with these arguments for what it changes.
#[tactic(auto, using(crate::proofs::Steps::second_given))]
pub fn wrong_change(change: Change, at: Span, on: Typed, given: &[Given]) -> Option<Broken>
    ensures { result ≡ first_of (wrong_change (change_of change) at (typed_of on.entry) (all_given_of given.now)) }
{
    match change {
        Change::Nothing | Change::Lines => None,
        Change::Receiver => not_writable(at, on),
        Change::Block => no_field(at, second(given)),
    }
}

/// The structure of the lines of a table, where the machine has it.
pub fn structure_on<'a>(lines: Lines<'a>, on: Receiver) -> Option<&'a Structure>
    requires { AreLines lines }
    ensures { option_copied result ≡ structure_on lines.entry.machine.now (receiver_of on) }
{
    match on {
        Receiver::Cache => lines.entry,
        Receiver::Directory => lines.directory,
        Receiver::TbeTable => lines.tbe,
        _ => None,
    }
}

/// The type of references to lines of this structure of the machine.
pub fn type_of_line<'a>(lines: Lines<'a>, s: Option<&'a Structure>) -> Option<KnownType<'a>>
    ensures { type_if result ≡ type_of_line lines.entry.machine.now (option_copied s.entry) }
{
    match s {
        None => None,
        Some(s) => Some(KnownType::Structure(Scope::Within(lines.machine), s)),
    }
}

fn states_among<'a>(declarations: &'a [Decl]) -> Option<&'a States>
    ensures { option_map states (option_copied result) ≡ find is_states (flat_map named_declarations declarations.now) }
{
    for d in declarations {
        if let Decl::States(s) = d {
            return Some(s);
        }
    }
    None
}

/// The type of a machine's states, where it declares them.
#[tactic(auto, using(crate::proofs::OwnTypes::states_known))]
pub fn states_type<'a>(m: &'a Machine) -> Option<KnownType<'a>>
    ensures { listed (type_if result) ≡ states_type m.now }
{
    match states_among(&m.declarations) {
        None => None,
        Some(s) => Some(KnownType::States(Scope::Within(m), s)),
    }
}

// An enumeration, if it is that of events.
fn events_if(d: &Decl) -> Option<&Enumeration>
    ensures { option_map enumeration (option_copied result) ≡ find is_events (named_declarations d.now) }
{
    match d {
        Decl::Enumeration(e) if e.name.text.as_slice() == b"Event".as_slice() => Some(e),
        _ => None,
    }
}

fn events_among<'a>(declarations: &'a [Decl]) -> Option<&'a Enumeration>
    ensures { option_map enumeration (option_copied result) ≡ find is_events (flat_map named_declarations declarations.now) }
{
    for d in declarations {
        let found = events_if(d);
        if found.is_some() {
            return found;
        }
    }
    None
}

/// The type of a machine's events, where it declares them.
#[tactic(auto, using(crate::proofs::OwnTypes::events_known))]
pub fn events_type<'a>(m: &'a Machine) -> Option<KnownType<'a>>
    ensures { listed (type_if result) ≡ events_type m.now }
{
    match events_among(&m.declarations) {
        None => None,
        Some(e) => Some(KnownType::Enumeration(Scope::Within(m), e)),
    }
}
