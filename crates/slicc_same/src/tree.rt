//! Whole files.
ghost use Rattle.std.specs.Prelude.{◌≡◌, ◌↔◌, true};
ghost use Rattle.slicc_ast.specs.Prelude.{none, shape_of, protocol_parts, tree};
ghost use Rattle.slicc_ast.specs.Trees.{item};
ghost use Rattle.slicc_same.specs.Alike.{same_parts, same_shape};

use crate::declaration::{same_enumeration, same_structure};
use crate::list::{Same, all_same};
use crate::machine::same_machine;
use crate::token::same_text;
use slicc_ast::Text;
use slicc_ast::tree::{Item, Tree};

impl Same for Item {
    ghost alike = { λ a b. same_shape (item a) (item b) };

    fn same(&self, other: &Item) -> bool {
        match (self, other) {
            (Item::Include(a, _), Item::Include(b, _)) => same_text(a, b),
            (Item::Enumeration(a), Item::Enumeration(b)) => same_enumeration(a, b),
            (Item::Structure(a), Item::Structure(b)) => same_structure(a, b),
            (Item::Machine(a), Item::Machine(b)) => same_machine(a, b),
            _ => false,
        }
    }
}

fn same_protocol(a: &Option<Text>, b: &Option<Text>) -> bool
    ensures { result ≡ same_parts (protocol_parts a.now none) (protocol_parts b.now none) }
{
    match (a, b) {
        (Some(a), Some(b)) => same_text(a, b),
        (None, None) => true,
        _ => false,
    }
}

fn same_tree(a: &Tree, b: &Tree) -> bool
    ensures { result ≡ same_shape (tree a.now) (tree b.now) }
{
    same_protocol(&a.protocol, &b.protocol) && all_same(&a.items, &b.items)
}

/// Whether two trees that keep the grammar's conditions, as each that was read does, are the same, spans aside. Of other trees
/// it says whether they are spelled alike. It takes no memory, and goes no deeper than the trees are nested.
pub fn same(a: &Tree, b: &Tree) -> bool
    ensures { result ≡ true ↔ shape_of (tree a.now) ≡ shape_of (tree b.now) }
{
    same_tree(a, b)
}
