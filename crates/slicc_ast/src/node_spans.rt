//! The spans of a tree's nodes, in the order of the text.
ghost use Rattle.std.specs.Prelude.{◌≡◌, ◌++◌, List, OnOk};
ghost use Rattle.std.specs.List.{flat_map};
ghost use Rattle.slicc_ast.specs.declared.tree.span.Span.{Span};

mod balanced;
mod declaration;
mod expression;
mod machine;
mod statement;

use crate::tree::Span;
pub use machine::spans;
use ruby_base::{NoMemory, Seq};

/// What has nodes, and so spans.
pub trait Spanned {
    ghost spans_at: { Self → List Span };

    /// Adds the spans of its nodes in the order of the text.
    fn add_to(&self, spans: &mut Seq<Span>) -> Result<(), NoMemory>
        ensures { OnOk result (spans.new ≡ spans.old ++ spans_at self.now) };
}

/// Adds the spans of each of a list.
pub fn add_each<T: Spanned>(items: &[T], spans: &mut Seq<Span>) -> Result<(), NoMemory>
    ensures { OnOk result (spans.new ≡ spans.old ++ flat_map T.spans_at items.now) }
{
    for item in items {
        item.add_to(spans)?;
    }
    Ok(())
}
