//! The names of a scope, as they are declared one after another.
ghost use Rattle.std.specs.Prelude.{◌≡◌, ◌++◌, ◌∷◌, [], IfOk, OnOk, flat_map, List};
ghost use Rattle.std.specs.Option.{option_map, option_copied};
ghost use Rattle.slicc_names.specs.Lookups.{FindSame};
ghost use Rattle.slicc_plan.specs.Prelude.{first_after, first_with, repeated, repeated_after, told_after, twice_declared, local_of, Declaration, named_declarations};
ghost use Rattle.slicc_plan.specs.TwiceDeclared.{names_of, listed};
ghost use Rattle.slicc_names.specs.Declaring.{one_formal, one_member, one_parameter, one_state, one_symbol};

use indexmap::IndexMap;
use slicc_ast::tree::{Decl, Formal, Function, Member, Name, Parameter, Span, State, Stmt, Symbol};
use slicc_plan::{Broken, NoMemory, Rule, earlier_broken};
use std::alloc::Global;
use std::marker::Model;

/// The names of a scope that were declared so far: the first with each text. A name is found by a hash of its text.
#[derive(Drop)]
pub struct FirstNames {
    alloc: Global,
    places: IndexMap<Vec<u8>, Span>,
}

impl Model for FirstNames {
    ghost use Rattle.std.specs.Prelude.{List, map};
    ghost use Rattle.slicc_ast.specs.declared.tree.name.Name.{Name};

    ghost Value = { List Name };

    ghost view = { λ d. map (λ e. record { text = e.0.items; span = e.1 }) d.places.entries };
}

/// A name that is declared twice, or whose text is that of a built-in type.
pub fn twice(place: Span, other: Option<Span>) -> Broken
    ensures { result ≡ twice_declared place other }
{
    Broken {
        rule: Rule::TwiceDeclared,
        machine: 0,
        place,
        other,
    }
}

impl FirstNames {
    pub fn new(alloc: Global) -> FirstNames
        ensures { result ≡ [] }
    {
        FirstNames {
            alloc,
            places: IndexMap::new(alloc),
        }
    }

    /// Declares a name. The answer is the place of the first one with its text, if there was one.
    pub fn add(&mut self, name: &Name) -> Result<Option<Span>, NoMemory>
        ensures before { IfOk result (λ place. place ≡ option_map (λ n. n.span) (first_with name.now.text self.old)) }
        ensures names { OnOk result (FindSame self.new (self.old ++ name.now ∷ [])) }
    {
        let before = self.places.get(name.text.as_slice()).copied();
        if before.is_some() {
            return Ok(before);
        }
        let own = Vec::from_slice(self.alloc, name.text.as_slice())?;
        self.places.insert(own, name.span)?;
        Ok(None)
    }

    /// Declares a name, which may be told where it was declared before.
    pub fn declare(
        &mut self,
        first: Option<Broken>,
        name: &Name,
    ) -> Result<Option<Broken>, NoMemory>
        ensures told { IfOk result (λ r. r ≡ first_after first (told_after self.old name.now)) }
        ensures names { OnOk result (FindSame self.new (self.old ++ name.now ∷ [])) }
    {
        match self.add(name)? {
            None => Ok(first),
            Some(other) => Ok(earlier_broken(first, twice(name.span, Some(other)))),
        }
    }

    /// Declares the name of a part, if it has one.
    fn declare_part<T: Declares>(
        &mut self,
        first: Option<Broken>,
        part: &T,
    ) -> Result<Option<Broken>, NoMemory>
        ensures told { IfOk result (λ r. r ≡ first_after first (repeated_after self.old (names_of (T.declares part.now)))) }
        ensures names { OnOk result (FindSame self.new (self.old ++ names_of (T.declares part.now))) }
    {
        match part.declared_name() {
            None => Ok(first),
            Some(name) => self.declare(first, name),
        }
    }

    /// Declares the names of parts one after another.
    pub fn declare_all<T: Declares>(
        &mut self,
        first: Option<Broken>,
        parts: &[T],
    ) -> Result<Option<Broken>, NoMemory>
        ensures told { IfOk result (λ r. r ≡ first_after first (repeated_after self.old (names_of (flat_map T.declares parts.now)))) }
        ensures names { OnOk result (FindSame self.new (self.old ++ names_of (flat_map T.declares parts.now))) }
    {
        let mut first = first;
        for part in parts {
            first = self.declare_part(first, part)?;
        }
        Ok(first)
    }
}

/// A scope of these parts alone.
pub fn in_parts<T: Declares>(
    alloc: Global,
    first: Option<Broken>,
    parts: &[T],
) -> Result<Option<Broken>, NoMemory>
    ensures { IfOk result (λ r. r ≡ first_after first (flat_map repeated (flat_map T.declares parts.now ∷ []))) }
{
    let mut scope = FirstNames::new(alloc);
    scope.declare_all(first, parts)
}

/// A scope of parts of two kinds, one after the other.
pub fn in_both<T: Declares, U: Declares>(
    alloc: Global,
    first: Option<Broken>,
    parts: &[T],
    others: &[U],
) -> Result<Option<Broken>, NoMemory>
    ensures { IfOk result (λ r. r ≡ first_after first (repeated (flat_map T.declares parts.now ++ flat_map U.declares others.now))) }
{
    let mut scope = FirstNames::new(alloc);
    let first = scope.declare_all(first, parts)?;
    scope.declare_all(first, others)
}

/// A part of a tree that declares one name at most.
pub trait Declares {
    ghost declares: { Self → List Declaration };

    fn declared_name(&self) -> Option<&Name>
        ensures { names_of (declares self.now) ≡ listed (option_copied result) };
}

impl Declares for Symbol {
    ghost declares = { one_symbol };

    fn declared_name(&self) -> Option<&Name> {
        Some(&self.name)
    }
}

impl Declares for State {
    ghost declares = { one_state };

    fn declared_name(&self) -> Option<&Name> {
        Some(&self.name)
    }
}

impl Declares for Member {
    ghost declares = { one_member };

    fn declared_name(&self) -> Option<&Name> {
        match self {
            Member::Field { name, .. } | Member::Method { name, .. } => Some(name),
            Member::Skipped(s) => Some(&s.name),
        }
    }
}

impl Declares for Formal {
    ghost declares = { one_formal };

    fn declared_name(&self) -> Option<&Name> {
        match &self.name {
            None => None,
            Some(name) => Some(name),
        }
    }
}

impl Declares for Parameter {
    ghost declares = { one_parameter };

    fn declared_name(&self) -> Option<&Name> {
        Some(&self.name)
    }
}

impl Declares for Stmt {
    ghost declares = { local_of };

    fn declared_name(&self) -> Option<&Name> {
        match self {
            Stmt::Declare { name, .. } => Some(name),
            _ => None,
        }
    }
}

impl Declares for Decl {
    ghost declares = { named_declarations };

    fn declared_name(&self) -> Option<&Name> {
        match self {
            Decl::States(s) => Some(&s.name),
            Decl::Enumeration(e) => Some(&e.name),
            Decl::Structure(s) => Some(&s.name),
            Decl::OutPort(p) => Some(&p.name),
            Decl::InPort(p) => Some(&p.name),
            Decl::Action(a) => Some(&a.name),
            Decl::Transition(_) => None,
            Decl::Function(Function::Plain { name, .. }) => Some(name),
            Decl::Function(Function::Skipped(s)) => Some(&s.name),
            Decl::Object(o) => Some(&o.name),
        }
    }
}
