ghost use Rattle.std.specs.Prelude.{◌≡◌, ◌++◌, ◌∷◌, [], OnOk};
ghost use Rattle.slicc_ast.specs.Declarations.{enumeration, formal, formal_list, member, pair, pair_list, skipped, states, structure};
ghost use Rattle.slicc_ast.specs.Outline.{spans_in, spans_of};
ghost use Rattle.slicc_ast.specs.Spans.{state_spans, symbol_spans};

use super::balanced::add_balanced;
use super::{Spanned, add_each};
use crate::tree::{
    Enumeration, Formal, Formals, Member, Pair, PairValue, Pairs, Skipped, Span, State, States,
    Structure, Symbol,
};
use ruby_base::{NoMemory, Seq};

impl Spanned for Pair {
    ghost spans_at = { λ p. spans_of (pair p) };

    fn add_to(&self, spans: &mut Seq<Span>) -> Result<(), NoMemory> {
        match self {
            Pair::Named { name, value, span } => {
                spans.append(&[*span, name.span])?;
                match value {
                    PairValue::Quoted(_) | PairValue::Number(_) => Ok(()),
                    PairValue::Name(named) => spans.push(named.span),
                }
            }
            Pair::Bare(_, span) => spans.push(*span),
        }
    }
}

/// Adds the spans of attributes.
pub fn add_pairs(spans: &mut Seq<Span>, p: &Pairs) -> Result<(), NoMemory>
    ensures { OnOk result (spans.new ≡ spans.old ++ p.now.span ∷ spans_in (pair_list p.now.items)) }
{
    spans.push(p.span)?;
    add_each(&p.items, spans)
}

impl Spanned for Formal {
    ghost spans_at = { λ f. spans_of (formal f) };

    fn add_to(&self, spans: &mut Seq<Span>) -> Result<(), NoMemory> {
        spans.append(&[self.span, self.kind.span])?;
        match &self.name {
            Some(name) => spans.push(name.span),
            None => Ok(()),
        }
    }
}

/// Adds the spans of formals.
pub fn add_formals(spans: &mut Seq<Span>, f: &Formals) -> Result<(), NoMemory>
    ensures { OnOk result (spans.new ≡ spans.old ++ f.now.span ∷ spans_in (formal_list f.now.items)) }
{
    spans.push(f.span)?;
    add_each(&f.items, spans)
}

impl Spanned for Skipped {
    ghost spans_at = { λ s. spans_of (skipped s) };

    fn add_to(&self, spans: &mut Seq<Span>) -> Result<(), NoMemory> {
        spans.append(&[self.span, self.kind.span, self.name.span])?;
        add_balanced(spans, &self.arguments)?;
        add_pairs(spans, &self.pairs)?;
        add_balanced(spans, &self.body)
    }
}

impl Spanned for Symbol {
    ghost spans_at = { symbol_spans };

    fn add_to(&self, spans: &mut Seq<Span>) -> Result<(), NoMemory> {
        spans.push(self.name.span)?;
        add_pairs(spans, &self.pairs)
    }
}

impl Spanned for Enumeration {
    ghost spans_at = { λ e. spans_of (enumeration e) };

    fn add_to(&self, spans: &mut Seq<Span>) -> Result<(), NoMemory> {
        spans.append(&[self.span, self.name.span])?;
        add_pairs(spans, &self.pairs)?;
        add_each(&self.members, spans)
    }
}

impl Spanned for State {
    ghost spans_at = { state_spans };

    fn add_to(&self, spans: &mut Seq<Span>) -> Result<(), NoMemory> {
        spans.append(&[self.name.span, self.owner.span, self.permission.span])?;
        add_pairs(spans, &self.pairs)
    }
}

impl Spanned for States {
    ghost spans_at = { λ s. spans_of (states s) };

    fn add_to(&self, spans: &mut Seq<Span>) -> Result<(), NoMemory> {
        spans.append(&[self.span, self.name.span])?;
        add_pairs(spans, &self.pairs)?;
        add_each(&self.members, spans)
    }
}

impl Spanned for Member {
    ghost spans_at = { λ m. spans_of (member m) };

    fn add_to(&self, spans: &mut Seq<Span>) -> Result<(), NoMemory> {
        match self {
            Member::Field {
                kind,
                name,
                pairs,
                span,
            } => {
                spans.append(&[*span, kind.span, name.span])?;
                add_pairs(spans, pairs)
            }
            Member::Method {
                kind,
                name,
                formals,
                pairs,
                span,
            } => {
                spans.append(&[*span, kind.span, name.span])?;
                add_formals(spans, formals)?;
                add_pairs(spans, pairs)
            }
            Member::Skipped(skipped) => skipped.add_to(spans),
        }
    }
}

impl Spanned for Structure {
    ghost spans_at = { λ s. spans_of (structure s) };

    fn add_to(&self, spans: &mut Seq<Span>) -> Result<(), NoMemory> {
        spans.append(&[self.span, self.name.span])?;
        add_pairs(spans, &self.pairs)?;
        add_each(&self.members, spans)
    }
}
