ghost use Rattle.std.specs.Prelude.{◌≡◌, ◌++◌, ◌∷◌, OnOk};
ghost use Rattle.slicc_ast.specs.Names.{balanced_part};
ghost use Rattle.slicc_ast.specs.Prelude.{balanced_list, none, spans_in};

use crate::tree::{Balanced, Part, Span};
use ruby_base::{NoMemory, Seq};

/// Adds the spans of a balanced part and of those in it.
#[cycle(balanced_spans)]
pub fn add_balanced(spans: &mut Seq<Span>, b: &Balanced) -> Result<(), NoMemory>
    ensures { OnOk result (spans.new ≡ spans.old ++ b.now.span ∷ spans_in (balanced_list b.now.parts)) }
{
    spans.push(b.span)?;
    for part in b.parts.as_slice() {
        add_part(spans, part)?;
    }
    Ok(())
}

#[cycle(balanced_spans)]
fn add_part(spans: &mut Seq<Span>, p: &Part) -> Result<(), NoMemory>
    ensures { OnOk result (spans.new ≡ spans.old ++ spans_in (balanced_part p.now none)) }
{
    match p {
        Part::Token(_) => Ok(()),
        Part::Parentheses(inner) => add_balanced(spans, inner),
        Part::Brackets(inner) => add_balanced(spans, inner),
        Part::Braces(inner) => add_balanced(spans, inner),
    }
}
