use crate::tree::{Name, Span, TypeName};
use ruby_base::{Boxed, Seq, Text};

/// An expression, of any level of operators: the levels of the grammar are one type, in which the operands of a node bind
/// tighter than its operators.
#[cycle(expression)]
pub enum Expr {
    /// Operands with operators of one level between them, at least two. They group to the left: `a - b + c` is
    /// `(a - b) + c`, and each group on the left starts where the node does.
    Operation {
        first: Boxed<Expr>,
        others: Seq<Operand>,
        span: Span,
    },
    Not(Boxed<Expr>, Span),
    Negate(Boxed<Expr>, Span),
    /// A primary expression with at least one suffix. Each suffix is one of all that stands before it.
    Postfix {
        value: Boxed<Expr>,
        suffixes: Seq<Suffix>,
        span: Span,
    },
    Number(i64, Span),
    True(Span),
    False(Span),
    /// `OOD`, the reference to nothing.
    Nothing(Span),
    Variable(Name),
    /// `owner:member`, a member of an enumeration.
    Member {
        owner: Name,
        member: Name,
        span: Span,
    },
    /// `name(arguments)`
    Call {
        name: Name,
        arguments: Args,
        span: Span,
    },
    New(Name, Span),
    IsValid(Boxed<Expr>, Span),
    IsInvalid(Boxed<Expr>, Span),
    /// `static_cast(target, "mode", value)`, in which the string may be left out.
    Cast {
        target: TypeName,
        mode: Option<Text>,
        value: Boxed<Expr>,
        span: Span,
    },
    /// An expression in parentheses.
    Group(Boxed<Expr>, Span),
}

impl Drop for Expr {
    #[cycle(expression_drop)]
    fn drop(self) {
        match self {
            Expr::Operation {
                first: _,
                others: _,
                span: _,
            } => {}
            Expr::Not(_, _) => {}
            Expr::Negate(_, _) => {}
            Expr::Postfix {
                value: _,
                suffixes: _,
                span: _,
            } => {}
            Expr::Number(_, _) => {}
            Expr::True(_) => {}
            Expr::False(_) => {}
            Expr::Nothing(_) => {}
            Expr::Variable(_) => {}
            Expr::Member {
                owner: _,
                member: _,
                span: _,
            } => {}
            Expr::Call {
                name: _,
                arguments: _,
                span: _,
            } => {}
            Expr::New(_, _) => {}
            Expr::IsValid(_, _) => {}
            Expr::IsInvalid(_, _) => {}
            Expr::Cast {
                target: _,
                mode: _,
                value: _,
                span: _,
            } => {}
            Expr::Group(_, _) => {}
        }
    }
}

/// An operator and the operand behind it.
#[cycle(expression)]
pub struct Operand {
    pub operator: Operator,
    pub value: Expr,
}

impl Drop for Operand {
    #[cycle(expression_drop)]
    fn drop(self) {
        let Operand {
            operator: _,
            value: _,
        } = self;
    }
}

/// What may stand behind a primary expression.
#[cycle(expression)]
pub enum Suffix {
    /// `.name`
    Field(Name, Span),
    /// `.name(arguments)`
    Method {
        name: Name,
        arguments: Args,
        span: Span,
    },
    /// `[key]`
    Index(Expr, Span),
}

impl Drop for Suffix {
    #[cycle(expression_drop)]
    fn drop(self) {
        match self {
            Suffix::Field(_, _) => {}
            Suffix::Method {
                name: _,
                arguments: _,
                span: _,
            } => {}
            Suffix::Index(_, _) => {}
        }
    }
}

/// The arguments of a call, none where nothing stands between its parentheses.
#[cycle(expression)]
pub struct Args {
    pub items: Seq<Expr>,
    pub span: Span,
}

impl Drop for Args {
    #[cycle(expression_drop)]
    fn drop(self) {
        let Args { items: _, span: _ } = self;
    }
}

/// The operators that stand between two operands.
#[derive(Clone, Copy, PartialEq, Eq)]
pub enum Operator {
    Or,
    And,
    Equal,
    Unequal,
    Less,
    Greater,
    LessOrEqual,
    GreaterOrEqual,
    Plus,
    Minus,
    Times,
}
