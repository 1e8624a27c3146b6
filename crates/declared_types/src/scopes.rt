//! The scopes of a protocol.
ghost use Rattle.std.specs.Prelude.{◌≡◌};
ghost use Rattle.std.specs.Coded.{codes};
ghost use Rattle.slicc_ast.specs.contracts.tree.machine.Machine as machine_type;
ghost use Rattle.slicc_ast.specs.contracts.tree.machine.Action as action_type;
ghost use Rattle.slicc_ast.specs.contracts.tree.machine.InPort as in_port_type;
ghost use Rattle.slicc_ast.specs.contracts.tree.declaration.Function as function_type;
ghost use Rattle.slicc_ast.specs.contracts.tree.declaration.Structure as structure_type;
ghost use Rattle.slicc_ast.specs.contracts.tree.declaration.Member as member_type;
ghost use Rattle.declared_types.specs.Scopes.{AreTables};

use crate::built_in_type;
use crate::lent::{Declared, KnownType, Scope};
use crate::table::Table;
use crate::tables::{all_tables, any_bears};
use crate::types::declared_type;
use crate::words::before_suffix;
use ruby_base::{NoMemory, Seq};
use slicc_ast::tree::Tree;
use std::alloc::Global;

/// The scopes of a protocol, each with what is declared right in it. They are numbered: the protocol itself is 0, and its
/// machines follow in their order.
#[derive(Drop)]
pub struct Scopes<'a> {
    /// What they are of.
    pub trees: &'a [Tree],
    tables: Seq<Table<'a>>,
    ghost tabled: { AreTables trees.now tables } by { Prim.hlevel (codes, machine_type.the_row.coded, action_type.the_row.coded, in_port_type.the_row.coded, function_type.the_row.coded, structure_type.the_row.coded, member_type.the_row.coded) },
}

impl<'a> Scopes<'a> {
    ghost use Rattle.std.specs.Prelude.{length, IfOk};
    ghost use Rattle.std.specs.Option.{option_map};
    ghost use Rattle.slicc_plan.specs.Prelude.{declared_in, first_named, machine_names, wide_scopes, global_type, type_in, is_among, permission_call};
    ghost use Rattle.std.specs.List.{list_any};
    ghost use Rattle.std.specs.Str.{bytes_eq};
    ghost use Rattle.declared_types.specs.Lent.{declaration_of, declarations_of, scope_of, type_of};
    ghost use Rattle.declared_types.specs.Scopes.{scope_at, summary, table_in};

    /// The scopes of the protocol with these trees.
    pub fn new(alloc: Global, trees: &'a [Tree]) -> Result<Scopes<'a>, NoMemory>
        ensures { IfOk result (λ s. s.trees.now ≡ trees.now) }
    {
        let tables = all_tables(alloc, trees)?;
        Ok(Scopes { trees, tables })
    }

    /// How many scopes there are, which is one more than machines.
    pub fn len(&self) -> usize
        ensures { result ≡ length (wide_scopes self.now.trees.now) }
    {
        self.tables.len()
    }

    // The table of a scope.
    fn table(&self, number: usize) -> &Table<'a>
        ensures { summary result.now ≡ table_in self.now.trees.now (scope_at self.now.trees.now number) }
    {
        let known = if number < self.tables.len() {
            number
        } else {
            0
        };
        &self.tables[known]
    }

    /// The scope of a number.
    pub fn scope(&self, number: usize) -> Scope<'a>
        ensures { scope_of result ≡ scope_at self.now.trees.now number }
    {
        self.table(number).scope
    }

    /// What is declared right in the scope of a number, in the order of the text.
    pub fn declarations(&self, number: usize) -> &[Declared<'a>]
        ensures { declarations_of result.now ≡ declared_in self.now.trees.now (scope_at self.now.trees.now number) }
    {
        self.table(number).declarations.as_slice()
    }

    /// The first declaration of a name right in the scope of a number, where there is one.
    pub fn first_named(&self, number: usize, name: &[u8]) -> Option<Declared<'a>>
        ensures { option_map declaration_of result ≡ first_named name.now (declared_in self.now.trees.now (scope_at self.now.trees.now number)) }
    {
        self.table(number).first_named(name)
    }

    /// What the name of a type stands for right in the protocol, where it stands for one.
    pub fn global_type(&self, name: &[u8]) -> Option<KnownType<'a>>
        ensures { option_map type_of result ≡ global_type self.now.trees.now name.now }
    {
        match built_in_type(name) {
            Some(b) => Some(KnownType::BuiltIn(b)),
            None => match self.first_named(0, name) {
                None => None,
                Some(d) => declared_type(Scope::Everywhere, d),
            },
        }
    }

    /// What the name of a type stands for in the scope of a number, where it stands for one.
    pub fn type_in(&self, number: usize, name: &[u8]) -> Option<KnownType<'a>>
        ensures { option_map type_of result ≡ type_in self.now.trees.now (scope_at self.now.trees.now number) name.now }
    {
        let scope = self.scope(number);
        match scope {
            Scope::Everywhere => self.global_type(name),
            Scope::Within(_) => match self.first_named(number, name) {
                None => self.global_type(name),
                Some(d) => declared_type(scope, d),
            },
        }
    }

    /// Whether a machine has this name.
    pub fn has_machine(&self, name: &[u8]) -> bool
        ensures { result ≡ is_among (machine_names self.now.trees.now) name.now }
    {
        any_bears(&self.tables, name)
    }

    /// Whether this is the name of a call from the states of a machine to permissions.
    pub fn has_permission_call(&self, text: &[u8]) -> bool
        ensures { result ≡ list_any (λ machine. bytes_eq (permission_call machine) text.now) (machine_names self.now.trees.now) }
    {
        match before_suffix(text, b"_State_to_permission") {
            None => false,
            Some(machine) => self.has_machine(machine),
        }
    }
}
