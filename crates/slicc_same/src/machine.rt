//! Machines and what is declared in them.
ghost use Rattle.std.specs.Prelude.{◌≡◌};
ghost use Rattle.slicc_ast.specs.Machines.{action, in_port, machine, names, out_port, parameter, transition};
ghost use Rattle.slicc_ast.specs.Prelude.{decl, function, function_body, literal_parts, next_parts, object, none};
ghost use Rattle.slicc_same.specs.Alike.{same_parts, same_shape};
ghost use Rattle.slicc_same.specs.AlikeItems.{alike_name};

use crate::declaration::{
    same_enumeration, same_formals, same_pairs, same_skipped, same_states, same_structure,
};
use crate::list::{Same, all_same};
use crate::statement::same_block;
use crate::token::{same_name, same_text, same_type};
use slicc_ast::tree::{
    Action, Block, Decl, Function, InPort, Literal, Machine, Name, Names, NextState, Object,
    OutPort, Parameter, Transition,
};

fn same_out_port(a: &OutPort, b: &OutPort) -> bool
    ensures { result ≡ same_shape (out_port a.now) (out_port b.now) }
{
    same_name(&a.name, &b.name)
        && same_type(&a.message, &b.message)
        && same_name(&a.buffer, &b.buffer)
        && same_pairs(&a.pairs, &b.pairs)
}

fn same_in_port(a: &InPort, b: &InPort) -> bool
    ensures { result ≡ same_shape (in_port a.now) (in_port b.now) }
{
    same_name(&a.name, &b.name)
        && same_type(&a.message, &b.message)
        && same_name(&a.buffer, &b.buffer)
        && same_pairs(&a.pairs, &b.pairs)
        && same_block(&a.body, &b.body)
}

fn same_action(a: &Action, b: &Action) -> bool
    ensures { result ≡ same_shape (action a.now) (action b.now) }
{
    same_name(&a.name, &b.name) && same_pairs(&a.pairs, &b.pairs) && same_block(&a.body, &b.body)
}

impl Same for Name {
    ghost alike = { alike_name };

    fn same(&self, other: &Name) -> bool {
        same_name(self, other)
    }
}

fn same_names(a: &Names, b: &Names) -> bool
    ensures { result ≡ same_parts (names a.now none) (names b.now none) }
{
    match (a, b) {
        (Names::One(a), Names::One(b)) => same_name(a, b),
        (Names::Several(a, _), Names::Several(b, _)) => all_same(a, b),
        _ => false,
    }
}

fn same_next(a: &Option<NextState>, b: &Option<NextState>) -> bool
    ensures { result ≡ same_parts (next_parts a.now none) (next_parts b.now none) }
{
    match (a, b) {
        (Some(NextState::Named(a)), Some(NextState::Named(b))) => same_name(a, b),
        (Some(NextState::Asked(_)), Some(NextState::Asked(_))) => true,
        (None, None) => true,
        _ => false,
    }
}

fn same_transition(a: &Transition, b: &Transition) -> bool
    ensures { result ≡ same_shape (transition a.now) (transition b.now) }
{
    same_names(&a.states, &b.states)
        && same_names(&a.events, &b.events)
        && same_next(&a.next, &b.next)
        && same_pairs(&a.pairs, &b.pairs)
        && all_same(&a.actions, &b.actions)
}

fn same_body(a: &Option<Block>, b: &Option<Block>) -> bool
    ensures { result ≡ same_parts (function_body a.now) (function_body b.now) }
{
    match (a, b) {
        (Some(a), Some(b)) => same_block(a, b),
        (None, None) => true,
        _ => false,
    }
}

fn same_function(a: &Function, b: &Function) -> bool
    ensures { result ≡ same_shape (function a.now) (function b.now) }
{
    match (a, b) {
        (
            Function::Plain {
                kind,
                name,
                formals,
                pairs,
                body,
                ..
            },
            Function::Plain {
                kind: other_kind,
                name: other_name,
                formals: other_formals,
                pairs: other_pairs,
                body: other_body,
                ..
            },
        ) => {
            same_type(kind, other_kind)
                && same_name(name, other_name)
                && same_formals(formals, other_formals)
                && same_pairs(pairs, other_pairs)
                && same_body(body, other_body)
        }
        (Function::Skipped(a), Function::Skipped(b)) => same_skipped(a, b),
        _ => false,
    }
}

fn same_object(a: &Object, b: &Object) -> bool
    ensures { result ≡ same_shape (object a.now) (object b.now) }
{
    same_type(&a.kind, &b.kind)
        && a.has_star == b.has_star
        && same_name(&a.name, &b.name)
        && same_pairs(&a.pairs, &b.pairs)
}

impl Same for Decl {
    ghost alike = { λ a b. same_shape (decl a) (decl b) };

    fn same(&self, other: &Decl) -> bool {
        match (self, other) {
            (Decl::States(a), Decl::States(b)) => same_states(a, b),
            (Decl::Enumeration(a), Decl::Enumeration(b)) => same_enumeration(a, b),
            (Decl::Structure(a), Decl::Structure(b)) => same_structure(a, b),
            (Decl::OutPort(a), Decl::OutPort(b)) => same_out_port(a, b),
            (Decl::InPort(a), Decl::InPort(b)) => same_in_port(a, b),
            (Decl::Action(a), Decl::Action(b)) => same_action(a, b),
            (Decl::Transition(a), Decl::Transition(b)) => same_transition(a, b),
            (Decl::Function(a), Decl::Function(b)) => same_function(a, b),
            (Decl::Object(a), Decl::Object(b)) => same_object(a, b),
            _ => false,
        }
    }
}

fn same_literal(a: &Option<Literal>, b: &Option<Literal>) -> bool
    ensures { result ≡ same_parts (literal_parts a.now none) (literal_parts b.now none) }
{
    match (a, b) {
        (Some(Literal::Number(a, _)), Some(Literal::Number(b, _))) => *a == *b,
        (Some(Literal::Minus(a, _)), Some(Literal::Minus(b, _))) => *a == *b,
        (Some(Literal::Quoted(a, _)), Some(Literal::Quoted(b, _))) => same_text(a, b),
        (Some(Literal::True(_)), Some(Literal::True(_))) => true,
        (Some(Literal::False(_)), Some(Literal::False(_))) => true,
        (None, None) => true,
        _ => false,
    }
}

impl Same for Parameter {
    ghost alike = { λ a b. same_shape (parameter a) (parameter b) };

    fn same(&self, other: &Parameter) -> bool {
        same_type(&self.kind, &other.kind)
            && self.has_star == other.has_star
            && same_name(&self.name, &other.name)
            && same_literal(&self.literal, &other.literal)
            && same_pairs(&self.pairs, &other.pairs)
    }
}

pub fn same_machine(a: &Machine, b: &Machine) -> bool
    ensures { result ≡ same_shape (machine a.now) (machine b.now) }
{
    a.has_type == b.has_type
        && same_name(&a.name, &b.name)
        && same_text(&a.title, &b.title)
        && same_pairs(&a.pairs, &b.pairs)
        && all_same(&a.parameters, &b.parameters)
        && all_same(&a.declarations, &b.declarations)
}
