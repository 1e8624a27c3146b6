//! Where expressions are.
ghost use Rattle.std.specs.Prelude.{◌≡◌};
ghost use Rattle.slicc_plan.specs.Prelude.{span_of};

use slicc_ast::tree::{Expr, Span};

/// The place of an expression.
#[tactic(auto, using(crate::proofs::ExpressionSpans::span_of_boxes))]
pub fn span_of(e: &Expr) -> Span
    ensures { result ≡ span_of e.now }
{
    match e {
        Expr::Operation { span, .. }
        | Expr::Postfix { span, .. }
        | Expr::Member { span, .. }
        | Expr::Call { span, .. } => *span,
        Expr::Cast { span, .. } => *span,
        Expr::Not(_, span)
        | Expr::Negate(_, span)
        | Expr::IsValid(_, span)
        | Expr::IsInvalid(_, span)
        | Expr::Group(_, span) => *span,
        Expr::Number(_, span) => *span,
        Expr::True(span) | Expr::False(span) | Expr::Nothing(span) => *span,
        Expr::New(_, span) => *span,
        Expr::Variable(name) => name.span,
    }
}
