//! The numbers of names.
ghost use Rattle.std.specs.Prelude.{◌≡◌, [], IfOk, OnOk};
ghost use Rattle.declared_types.specs.Prelude.{declarations_of};
ghost use Rattle.slicc_names.specs.Names.{all_names, name_number, once_each, short_number, texts_declared};
ghost use Rattle.slicc_plan.specs.Prelude.{broken_declarations, first_of};
ghost use Rattle.slicc_names.specs.Collected.{AreNamesOrBroken, IsCollected};

use crate::protocol::limits_passed;
use crate::twice::names_twice_declared;
use declaration_rules::{judge_field_types, judge_prototypes, judge_type_names, judge_values};
use declared_types::{Declared, Scopes, name_of};
use ruby_base::NameIndex;
use slicc_ast::Text;
use slicc_ast::tree::Tree;
use slicc_plan::{Broken, NoMemory, Refusal, Seq, refused};
use std::alloc::Global;
use std::marker::Model;

/// The names of each scope of a protocol with their numbers.
#[derive(Drop)]
pub struct Names {
    scopes: Seq<NameIndex>,
}

impl Model for Names {
    ghost use Rattle.std.specs.Prelude.{ℕ, List};

    ghost Value = { List (List (List ℕ)) };

    ghost view = { λ n. n.scopes };
}

fn names_in(alloc: Global, declarations: &[Declared<'_>]) -> Result<NameIndex, NoMemory>
    ensures { IfOk result (λ names. names ≡ once_each (texts_declared (declarations_of declarations.now))) }
{
    let mut names = NameIndex::new(alloc);
    for d in declarations {
        names.add(name_of(*d).text.as_slice())?;
    }
    Ok(names)
}

fn short(number: u32) -> Option<u16>
    ensures { result ≡ short_number number }
{
    if number < 65536 {
        Some(number as u16)
    } else {
        None
    }
}

impl Names {
    /// The names of all scopes of a protocol.
    pub fn new(alloc: Global, scopes: &Scopes<'_>) -> Result<Names, NoMemory>
        ensures { IfOk result (λ names. names ≡ all_names scopes.now.trees.now) }
    {
        let mut all = Seq::new(alloc);
        for number in 0..scopes.len() {
            all.push(names_in(alloc, scopes.declarations(number))?)?;
        }
        Ok(Names { scopes: all })
    }

    /// The number of a name in the scope of a number. It is `None` where there is no such scope or the scope has no such name;
    /// only the first 65,536 names of a scope have numbers, and a protocol that keeps its rules has no more.
    pub fn find(&self, scope: u16, name: &Text) -> Option<u16>
        ensures { result ≡ name_number self.now scope name.now }
    {
        match self.scopes.get(scope as usize) {
            None => None,
            Some(names) => match names.find(name.as_slice()) {
                None => None,
                Some(number) => short(number),
            },
        }
    }
}

/// The first rule of declarations that a protocol breaks, if it breaks any.
#[tactic(auto, using(crate::proofs::FirstOfAll::rules_of_lists))]
pub fn broken_declarations(alloc: Global, scopes: &Scopes<'_>) -> Result<Option<Broken>, NoMemory>
    ensures { IfOk result (λ first. first ≡ first_of (broken_declarations scopes.now.trees.now)) }
{
    let first = names_twice_declared(alloc, None, scopes)?;
    let first = judge_type_names(first, scopes);
    let first = limits_passed(first, scopes);
    let first = judge_field_types(first, scopes);
    let first = judge_values(first, scopes);
    Ok(judge_prototypes(first, scopes))
}

// The names, or the first rule of declarations that is broken.
fn names_or_broken(alloc: Global, scopes: &Scopes<'_>) -> Result<Result<Names, Broken>, NoMemory>
    ensures { IfOk result (AreNamesOrBroken scopes.now.trees.now) }
{
    match broken_declarations(alloc, scopes)? {
        Some(b) => Ok(Err(b)),
        None => Ok(Ok(Names::new(alloc, scopes)?)),
    }
}

fn judged(alloc: Global, trees: &Seq<Tree>) -> Result<Result<Names, Broken>, NoMemory>
    ensures { IfOk result (AreNamesOrBroken trees.now) }
{
    let scopes = Scopes::new(alloc, trees.as_slice())?;
    names_or_broken(alloc, &scopes)
}

/// The names of a protocol with these trees, or the first of the rules of declarations that it breaks.
pub fn collect(alloc: Global, trees: &Seq<Tree>) -> Result<Names, Refusal>
    ensures { IsCollected trees.now result }
{
    match judged(alloc, trees) {
        Ok(Ok(names)) => Ok(names),
        Ok(Err(b)) => Err(refused(b)),
        Err(NoMemory) => Err(Refusal::NoMemory),
    }
}
