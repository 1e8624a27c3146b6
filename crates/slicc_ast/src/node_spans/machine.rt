ghost use Rattle.std.specs.Prelude.{◌≡◌, ◌++◌, ◌∷◌, [], IfOk, OnOk};
ghost use Rattle.slicc_ast.specs.Machines.{action, decl, function, in_port, literal, machine, names, next_parts, object, out_port, parameter, transition};
ghost use Rattle.slicc_ast.specs.Outline.{none, spans_in, spans_of};
ghost use Rattle.slicc_ast.specs.Trees.{item, tree};

use super::declaration::{add_formals, add_pairs};
use super::statement::add_block;
use super::{Spanned, add_each};
use crate::tree::{
    Action, Decl, Function, InPort, Item, Literal, Machine, Name, Names, NextState, Object,
    OutPort, Parameter, Span, Transition, Tree,
};
use ruby_base::{NoMemory, Seq};
use std::alloc::Global;

impl Spanned for Name {
    ghost spans_at = { λ n. n.span ∷ [] };

    fn add_to(&self, spans: &mut Seq<Span>) -> Result<(), NoMemory> {
        spans.push(self.span)
    }
}

impl Spanned for OutPort {
    ghost spans_at = { λ p. spans_of (out_port p) };

    fn add_to(&self, spans: &mut Seq<Span>) -> Result<(), NoMemory> {
        spans.append(&[
            self.span,
            self.name.span,
            self.message.span,
            self.buffer.span,
        ])?;
        add_pairs(spans, &self.pairs)
    }
}

impl Spanned for InPort {
    ghost spans_at = { λ p. spans_of (in_port p) };

    fn add_to(&self, spans: &mut Seq<Span>) -> Result<(), NoMemory> {
        spans.append(&[
            self.span,
            self.name.span,
            self.message.span,
            self.buffer.span,
        ])?;
        add_pairs(spans, &self.pairs)?;
        add_block(spans, &self.body)
    }
}

impl Spanned for Action {
    ghost spans_at = { λ a. spans_of (action a) };

    fn add_to(&self, spans: &mut Seq<Span>) -> Result<(), NoMemory> {
        spans.append(&[self.span, self.name.span])?;
        add_pairs(spans, &self.pairs)?;
        add_block(spans, &self.body)
    }
}

fn add_names(spans: &mut Seq<Span>, n: &Names) -> Result<(), NoMemory>
    ensures { OnOk result (spans.new ≡ spans.old ++ spans_in (names n.now none)) }
{
    match n {
        Names::One(name) => spans.push(name.span),
        Names::Several(names, span) => {
            spans.push(*span)?;
            add_each(names, spans)
        }
    }
}

fn add_next(spans: &mut Seq<Span>, next: &Option<NextState>) -> Result<(), NoMemory>
    ensures { OnOk result (spans.new ≡ spans.old ++ spans_in (next_parts next.now none)) }
{
    match next {
        Some(NextState::Named(name)) => spans.push(name.span),
        Some(NextState::Asked(span)) => spans.push(*span),
        None => Ok(()),
    }
}

impl Spanned for Transition {
    ghost spans_at = { λ t. spans_of (transition t) };

    fn add_to(&self, spans: &mut Seq<Span>) -> Result<(), NoMemory> {
        spans.push(self.span)?;
        add_names(spans, &self.states)?;
        add_names(spans, &self.events)?;
        add_next(spans, &self.next)?;
        add_pairs(spans, &self.pairs)?;
        add_each(&self.actions, spans)
    }
}

impl Spanned for Function {
    ghost spans_at = { λ f. spans_of (function f) };

    fn add_to(&self, spans: &mut Seq<Span>) -> Result<(), NoMemory> {
        match self {
            Function::Plain {
                kind,
                name,
                formals,
                pairs,
                body,
                span,
            } => {
                spans.append(&[*span, kind.span, name.span])?;
                add_formals(spans, formals)?;
                add_pairs(spans, pairs)?;
                match body {
                    Some(body) => add_block(spans, body),
                    None => Ok(()),
                }
            }
            Function::Skipped(skipped) => skipped.add_to(spans),
        }
    }
}

impl Spanned for Object {
    ghost spans_at = { λ o. spans_of (object o) };

    fn add_to(&self, spans: &mut Seq<Span>) -> Result<(), NoMemory> {
        spans.append(&[self.span, self.kind.span, self.name.span])?;
        add_pairs(spans, &self.pairs)
    }
}

impl Spanned for Decl {
    ghost spans_at = { λ d. spans_of (decl d) };

    fn add_to(&self, spans: &mut Seq<Span>) -> Result<(), NoMemory> {
        match self {
            Decl::States(inner) => inner.add_to(spans),
            Decl::Enumeration(inner) => inner.add_to(spans),
            Decl::Structure(inner) => inner.add_to(spans),
            Decl::OutPort(inner) => inner.add_to(spans),
            Decl::InPort(inner) => inner.add_to(spans),
            Decl::Action(inner) => inner.add_to(spans),
            Decl::Transition(inner) => inner.add_to(spans),
            Decl::Function(inner) => inner.add_to(spans),
            Decl::Object(inner) => inner.add_to(spans),
        }
    }
}

fn span_of(l: &Literal) -> Span
    ensures { result ∷ [] ≡ spans_of (literal l.now) }
{
    match l {
        Literal::Number(_, span)
        | Literal::Minus(_, span)
        | Literal::Quoted(_, span)
        | Literal::True(span)
        | Literal::False(span) => *span,
    }
}

impl Spanned for Parameter {
    ghost spans_at = { λ p. spans_of (parameter p) };

    fn add_to(&self, spans: &mut Seq<Span>) -> Result<(), NoMemory> {
        spans.append(&[self.span, self.kind.span, self.name.span])?;
        if let Some(literal) = &self.literal {
            spans.push(span_of(literal))?;
        }
        add_pairs(spans, &self.pairs)
    }
}

impl Spanned for Machine {
    ghost spans_at = { λ m. spans_of (machine m) };

    fn add_to(&self, spans: &mut Seq<Span>) -> Result<(), NoMemory> {
        spans.append(&[self.span, self.name.span])?;
        add_pairs(spans, &self.pairs)?;
        add_each(self.parameters.as_slice(), spans)?;
        add_each(self.declarations.as_slice(), spans)
    }
}

impl Spanned for Item {
    ghost spans_at = { λ i. spans_of (item i) };

    fn add_to(&self, spans: &mut Seq<Span>) -> Result<(), NoMemory> {
        match self {
            Item::Include(_, span) => spans.push(*span),
            Item::Enumeration(inner) => inner.add_to(spans),
            Item::Structure(inner) => inner.add_to(spans),
            Item::Machine(inner) => inner.add_to(spans),
        }
    }
}

/// The spans of a tree's nodes, each before those of the nodes in it, in the order of the text.
#[tactic(auto, using(crate::proofs::SpansOfParts::item_list_spans))]
pub fn spans(alloc: Global, t: &Tree) -> Result<Seq<Span>, NoMemory>
    ensures { IfOk result (λ found. found ≡ spans_of (tree t.now)) }
{
    let mut found = Seq::new(alloc);
    found.push(t.span)?;
    add_each(&t.items, &mut found)?;
    Ok(found)
}
