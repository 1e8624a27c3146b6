//! Declarations that have no statements in them.
ghost use Rattle.std.specs.Prelude.{◌≡◌};
ghost use Rattle.slicc_ast.specs.Declarations.{enumeration, formal, member, pair, states, structure};
ghost use Rattle.slicc_ast.specs.Prelude.{formal_list, optional_name, pair_list, pair_value, skipped, none};
ghost use Rattle.slicc_same.specs.Alike.{same_parts, same_shape};
ghost use Rattle.slicc_same.specs.AlikeItems.{alike_state, alike_symbol};

use crate::balanced::same_balanced;
use crate::list::{Same, all_same};
use crate::token::{same_name, same_text, same_type};
use slicc_ast::tree::{
    Enumeration, Formal, Formals, Member, Name, Pair, PairValue, Pairs, Skipped, State, States,
    Structure, Symbol,
};

fn same_value(a: &PairValue, b: &PairValue) -> bool
    ensures { result ≡ same_parts (pair_value a.now none) (pair_value b.now none) }
{
    match (a, b) {
        (PairValue::Quoted(a), PairValue::Quoted(b)) => same_text(a, b),
        (PairValue::Number(a), PairValue::Number(b)) => *a == *b,
        (PairValue::Name(a), PairValue::Name(b)) => same_name(a, b),
        _ => false,
    }
}

impl Same for Pair {
    ghost alike = { λ a b. same_shape (pair a) (pair b) };

    fn same(&self, other: &Pair) -> bool {
        match (self, other) {
            (
                Pair::Named { name, value, .. },
                Pair::Named {
                    name: other_name,
                    value: other_value,
                    ..
                },
            ) => same_name(name, other_name) && same_value(value, other_value),
            (Pair::Bare(text, _), Pair::Bare(other_text, _)) => same_text(text, other_text),
            _ => false,
        }
    }
}

pub fn same_pairs(a: &Pairs, b: &Pairs) -> bool
    ensures { result ≡ same_parts (pair_list a.now.items) (pair_list b.now.items) }
{
    all_same(&a.items, &b.items)
}

pub fn same_optional_name(a: &Option<Name>, b: &Option<Name>) -> bool
    ensures { result ≡ same_parts (optional_name a.now none) (optional_name b.now none) }
{
    match (a, b) {
        (Some(a), Some(b)) => same_name(a, b),
        (None, None) => true,
        _ => false,
    }
}

impl Same for Formal {
    ghost alike = { λ a b. same_shape (formal a) (formal b) };

    fn same(&self, other: &Formal) -> bool {
        same_type(&self.kind, &other.kind)
            && self.has_star == other.has_star
            && same_optional_name(&self.name, &other.name)
    }
}

pub fn same_formals(a: &Formals, b: &Formals) -> bool
    ensures { result ≡ same_parts (formal_list a.now.items) (formal_list b.now.items) }
{
    all_same(&a.items, &b.items)
}

impl Same for Symbol {
    ghost alike = { alike_symbol };

    fn same(&self, other: &Symbol) -> bool {
        same_name(&self.name, &other.name) && same_pairs(&self.pairs, &other.pairs)
    }
}

impl Same for State {
    ghost alike = { alike_state };

    fn same(&self, other: &State) -> bool {
        same_name(&self.name, &other.name)
            && same_name(&self.owner, &other.owner)
            && same_name(&self.permission, &other.permission)
            && same_pairs(&self.pairs, &other.pairs)
    }
}

pub fn same_skipped(a: &Skipped, b: &Skipped) -> bool
    ensures { result ≡ same_shape (skipped a.now) (skipped b.now) }
{
    same_type(&a.kind, &b.kind)
        && same_name(&a.name, &b.name)
        && same_balanced(&a.arguments, &b.arguments)
        && same_pairs(&a.pairs, &b.pairs)
        && same_balanced(&a.body, &b.body)
}

impl Same for Member {
    ghost alike = { λ a b. same_shape (member a) (member b) };

    fn same(&self, other: &Member) -> bool {
        match (self, other) {
            (
                Member::Field {
                    kind,
                    name,
                    pairs,
                    ..
                },
                Member::Field {
                    kind: other_kind,
                    name: other_name,
                    pairs: other_pairs,
                    ..
                },
            ) => {
                same_type(kind, other_kind)
                    && same_name(name, other_name)
                    && same_pairs(pairs, other_pairs)
            }
            (
                Member::Method {
                    kind,
                    name,
                    formals,
                    pairs,
                    ..
                },
                Member::Method {
                    kind: other_kind,
                    name: other_name,
                    formals: other_formals,
                    pairs: other_pairs,
                    ..
                },
            ) => {
                same_type(kind, other_kind)
                    && same_name(name, other_name)
                    && same_formals(formals, other_formals)
                    && same_pairs(pairs, other_pairs)
            }
            (Member::Skipped(a), Member::Skipped(b)) => same_skipped(a, b),
            _ => false,
        }
    }
}

pub fn same_enumeration(a: &Enumeration, b: &Enumeration) -> bool
    ensures { result ≡ same_shape (enumeration a.now) (enumeration b.now) }
{
    same_name(&a.name, &b.name)
        && same_pairs(&a.pairs, &b.pairs)
        && all_same(&a.members, &b.members)
}

pub fn same_states(a: &States, b: &States) -> bool
    ensures { result ≡ same_shape (states a.now) (states b.now) }
{
    same_name(&a.name, &b.name)
        && same_pairs(&a.pairs, &b.pairs)
        && all_same(&a.members, &b.members)
}

pub fn same_structure(a: &Structure, b: &Structure) -> bool
    ensures { result ≡ same_shape (structure a.now) (structure b.now) }
{
    same_name(&a.name, &b.name)
        && same_pairs(&a.pairs, &b.pairs)
        && all_same(&a.members, &b.members)
}
