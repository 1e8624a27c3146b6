use crate::tree::{Balanced, Expr, Name, Pairs, Span, TypeName};
use ruby_base::{Seq, Text};

/// Statements in braces.
#[cycle(statement)]
pub struct Block {
    pub statements: Seq<Stmt>,
    pub span: Span,
}

impl Drop for Block {
    #[cycle(statement_drop)]
    fn drop(self) {
        let Block {
            statements: _,
            span: _,
        } = self;
    }
}

#[cycle(statement)]
pub enum Stmt {
    /// `kind name := value;`
    Declare {
        kind: TypeName,
        name: Name,
        value: Expr,
        span: Span,
    },
    /// `place := value;`
    Assign {
        place: Expr,
        value: Expr,
        span: Span,
    },
    /// `value;`
    Evaluate(Expr, Span),
    Return(Option<Expr>, Span),
    If(If),
    /// `peek(port, message pairs) body`
    Peek {
        port: Name,
        message: TypeName,
        pairs: Pairs,
        body: Block,
        span: Span,
    },
    /// `enqueue(port, message, latency) body`
    Enqueue {
        port: Name,
        message: TypeName,
        latency: Option<Expr>,
        body: Block,
        span: Span,
    },
    /// `stall_and_wait(port, address);`
    StallAndWait {
        port: Name,
        address: Expr,
        span: Span,
    },
    CheckAllocate(Name, Span),
    Error(Text, Span),
    Assert(Expr, Span),
    /// Text for a trace of gem5's, which a run here doesn't print.
    Print {
        word: PrintWord,
        arguments: Balanced,
        span: Span,
    },
}

impl Drop for Stmt {
    #[cycle(statement_drop)]
    fn drop(self) {
        match self {
            Stmt::Declare {
                kind: _,
                name: _,
                value: _,
                span: _,
            } => {}
            Stmt::Assign {
                place: _,
                value: _,
                span: _,
            } => {}
            Stmt::Evaluate(_, _) => {}
            Stmt::Return(_, _) => {}
            Stmt::If(_) => {}
            Stmt::Peek {
                port: _,
                message: _,
                pairs: _,
                body: _,
                span: _,
            } => {}
            Stmt::Enqueue {
                port: _,
                message: _,
                latency: _,
                body: _,
                span: _,
            } => {}
            Stmt::StallAndWait {
                port: _,
                address: _,
                span: _,
            } => {}
            Stmt::CheckAllocate(_, _) => {}
            Stmt::Error(_, _) => {}
            Stmt::Assert(_, _) => {}
            Stmt::Print {
                word: _,
                arguments: _,
                span: _,
            } => {}
        }
    }
}

/// `if (condition) then`, then any number of `else if`, and perhaps an `else`.
#[cycle(statement)]
pub struct If {
    pub condition: Expr,
    pub then: Block,
    pub others: Seq<ElseIf>,
    pub otherwise: Option<Block>,
    pub span: Span,
}

impl Drop for If {
    #[cycle(statement_drop)]
    fn drop(self) {
        let If {
            condition: _,
            then: _,
            others: _,
            otherwise: _,
            span: _,
        } = self;
    }
}

/// `else if (condition) then`
#[cycle(statement)]
pub struct ElseIf {
    pub condition: Expr,
    pub then: Block,
}

impl Drop for ElseIf {
    #[cycle(statement_drop)]
    fn drop(self) {
        let ElseIf {
            condition: _,
            then: _,
        } = self;
    }
}

/// The words that a statement of text for a trace begins with.
#[derive(Clone, Copy)]
pub enum PrintWord {
    /// `DPRINTF`
    Dprintf,
    /// `APPEND_TRANSITION_COMMENT`
    AppendTransitionComment,
}
