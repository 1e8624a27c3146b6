ghost use Rattle.std.specs.Prelude.{◌≡◌, ◌↔◌, true, IfOk, slice_get};
ghost use Rattle.std.specs.Option.{option_copied};
ghost use Rattle.slicc_plan.specs.AllRules.{IsAccepted, shapes_of};
ghost use Rattle.slicc_plan.specs.Counts.{counts_of};
ghost use Rattle.slicc_plan.specs.Declarations.{machines_of};
ghost use Rattle.slicc_plan.specs.SymbolsOf.{symbols_of};

use crate::counting::counts_of_symbols;
use crate::machine::machine_at;
use crate::{Counts, NoMemory};
use ruby_base::Seq;
use ruby_symbols::Symbols;
use slicc_ast::tree::{Machine, Tree};
use slicc_same::same;
use std::alloc::Global;
use std::marker::Model;
use std::sync::Arc;

/// A protocol that keeps all rules. It keeps the trees of its files in the order of reading, and a contract sees it as them: all
/// else in it is read off them. Its symbols, that is its types and machines with their states, buffers, ports, functions and
/// transitions, are made once. Copies share trees and symbols.
pub struct Plan {
    trees: Arc<Seq<Tree>, Global>,
    symbols: Arc<Symbols, Global>,
}

// It is written out, so that a crate above proves a call where a plan goes, and not how each tree and symbol goes.
impl Drop for Plan {
    fn drop(self) {
        let Plan {
            trees: _,
            symbols: _,
        } = self;
    }
}

impl Model for Plan {
    ghost use Rattle.std.specs.Prelude.{List};
    ghost use Rattle.slicc_ast.specs.declared.tree.item.Tree.{Tree};
    ghost use Rattle.std.specs.Prelude.{◌≡◌};
    ghost use Rattle.slicc_plan.specs.AllRules.{IsAccepted};
    ghost use Rattle.slicc_plan.specs.SymbolsOf.{symbols_of};
    ghost use Rattle.std.specs.Coded.{coded_list};
    ghost use Rattle.slicc_ast.specs.contracts.tree.item.Tree as tree;

    ghost Value = { List Tree };

    ghost coded = { coded_list tree.the_row.coded };

    ghost view = { λ p. p.trees.value };

    ghost invariant = { λ p. IsAccepted p.trees.value × (p.symbols.value ≡ symbols_of p.trees.value) };
}

impl Plan {
    /// The plan of trees that keep all rules, whose symbols these are.
    pub fn of(alloc: Global, trees: Seq<Tree>, symbols: Symbols) -> Result<Plan, NoMemory>
        requires accepted { IsAccepted trees }
        requires symbols { symbols ≡ symbols_of trees }
        ensures { IfOk result (λ plan. plan ≡ trees) }
    {
        Ok(Plan {
            trees: Arc::new(alloc, trees)?,
            symbols: Arc::new(alloc, symbols)?,
        })
    }

    /// The trees of the protocol's files, in the order of reading.
    pub fn trees(&self) -> &[Tree]
        ensures trees { result.now ≡ self.now }
        ensures accepted { IsAccepted self.now }
    {
        self.trees.as_slice()
    }

    /// What the protocol declares, and what its names stand for. It takes no memory.
    pub fn symbols(&self) -> &Symbols
        ensures { result.now ≡ symbols_of self.now }
    {
        &self.symbols
    }

    /// The machine of this number, which counts from 0 in the order of reading and of the text, or `None` where there are
    /// fewer.
    pub fn machine(&self, number: u16) -> Option<&Machine>
        ensures { option_copied result ≡ slice_get (machines_of self.now) number }
    {
        machine_at(self.trees(), number)
    }
}

/// One more plan of the same protocol, which shares its trees and symbols.
pub fn copy_plan(plan: &Plan) -> Result<Plan, NoMemory>
    ensures { IfOk result (λ copy. copy ≡ plan.now) }
{
    Ok(Plan {
        trees: Arc::try_clone(&plan.trees)?,
        symbols: Arc::try_clone(&plan.symbols)?,
    })
}

/// How many machines the protocol of a plan has, and how many states, events and pairs with a written transition, summed over
/// them. It takes no memory.
pub fn counts(plan: &Plan) -> Counts
    ensures { result ≡ counts_of plan.now }
{
    let _accepted = plan.trees();
    counts_of_symbols(plan.symbols())
}

/// Whether two plans are those of the same protocol: as many files, whose trees are alike in the order of reading, spans left
/// aside. What a protocol does isn't read off spans, so that a protocol may have blanks and comments added and be the same. Two
/// plans of one file, read twice, are the same, and so are a plan and its copy. It takes no memory.
pub fn same_plan(a: &Plan, b: &Plan) -> bool
    ensures { result ≡ true ↔ shapes_of a.now ≡ shapes_of b.now }
{
    same_trees(a.trees(), b.trees())
}

fn same_trees(a: &[Tree], b: &[Tree]) -> bool
    ensures { result ≡ true ↔ shapes_of a.now ≡ shapes_of b.now }
{
    let [first_a, a @ ..] = a else {
        return b.is_empty();
    };
    match b {
        [first_b, b @ ..] => same(first_a, first_b) && same_trees(a, b),
        [] => false,
    }
}
