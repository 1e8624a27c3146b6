//! The ways through all bodies of a protocol.
ghost use Rattle.std.specs.Prelude.{◌≡◌, false};
ghost use Rattle.slicc_plan.specs.Prelude.{function, first_after, missing_returns, wrong_returns};
ghost use Rattle.declared_types.specs.Prelude.{scope_at};
ghost use Rattle.body_rules.specs.Ways.{ways_of};

use crate::returning::{wrong_ends, wrong_returns};
use declaration_rules::{DeclarationRule, first_in_scopes, is_built_in};
use declared_types::{Declared, Scopes};
use slicc_ast::tree::{Block, Function};
use slicc_plan::{Broken, BuiltInType, earlier_of_two};

// The first broken rule, after the body of a port or of an action.
fn judge_body(first: Option<Broken>, b: &Block) -> Option<Broken>
    ensures { result ≡ first_after first (wrong_returns false b.now) }
{
    earlier_of_two(first, wrong_returns(false, b))
}

fn judge_function(
    first: Option<Broken>,
    scopes: &Scopes<'_>,
    number: usize,
    f: &Function,
) -> Option<Broken>
    ensures { result ≡ first_after first (ways_of scopes.now.trees.now (scope_at scopes.now.trees.now number) (function f.now)) }
{
    match f {
        Function::Skipped(_) => first,
        Function::Plain {
            kind,
            body,
            span,
            ..
        } => match body {
            None => first,
            Some(b) => {
                let answers = !is_built_in(BuiltInType::Void, scopes.type_in(number, &kind.text));
                earlier_of_two(first, wrong_ends(answers, *span, b))
            }
        },
    }
}

// Each way through a body ends as it has to.
struct Ways;

impl DeclarationRule for Ways {
    ghost broken_of = { ways_of };

    fn judge<'a>(
        first: Option<Broken>,
        scopes: &Scopes<'a>,
        number: usize,
        d: Declared<'a>,
    ) -> Option<Broken> {
        match d {
            Declared::InPort(p) => judge_body(first, &p.body),
            Declared::Action(a) => judge_body(first, &a.body),
            Declared::Function(f) => judge_function(first, scopes, number, f),
            _ => first,
        }
    }
}

/// The first broken rule, after the ways through the bodies of all machines.
pub fn missing_returns(first: Option<Broken>, scopes: &Scopes<'_>) -> Option<Broken>
    ensures { result ≡ first_after first (missing_returns scopes.now.trees.now) }
{
    first_in_scopes::<Ways>(first, scopes)
}
