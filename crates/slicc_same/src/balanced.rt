//! Balanced parts.
ghost use Rattle.std.specs.Prelude.{◌≡◌};
ghost use Rattle.slicc_ast.specs.Prelude.{balanced_list};
ghost use Rattle.slicc_same.specs.Prelude.{all_alike, same_parts, alike_part};

use crate::token::same_kind;
use slicc_ast::tree::{Balanced, Part};

#[cycle(balanced)]
pub fn same_balanced(a: &Balanced, b: &Balanced) -> bool
    ensures { result ≡ same_parts (balanced_list a.now.parts) (balanced_list b.now.parts) }
{
    all_same_parts(&a.parts, &b.parts)
}

#[cycle(balanced)]
fn all_same_parts(a: &[Part], b: &[Part]) -> bool
    ensures { result ≡ all_alike alike_part a.now b.now }
{
    let mut right = b;
    for x in a {
        let [y, others @ ..] = right else {
            return false;
        };
        if !same_part(x, y) {
            return false;
        }
        right = others;
    }
    right.is_empty()
}

#[cycle(balanced)]
fn same_part(a: &Part, b: &Part) -> bool
    ensures { result ≡ alike_part a.now b.now }
{
    match (a, b) {
        (Part::Token(a), Part::Token(b)) => same_kind(a, b),
        (Part::Parentheses(a), Part::Parentheses(b)) => same_balanced(a, b),
        (Part::Brackets(a), Part::Brackets(b)) => same_balanced(a, b),
        (Part::Braces(a), Part::Braces(b)) => same_balanced(a, b),
        _ => false,
    }
}
