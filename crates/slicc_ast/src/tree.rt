//! The trees of the whole language, one type for each nonterminal of its grammar, and the words and signs that a
//! part of a text may keep as they are. How a tree goes is written out, so that a crate above proves a
//! call where one goes, and not how each of its parts goes.

mod balanced;
mod declaration;
mod expression;
mod item;
mod machine;
mod name;
mod span;
mod statement;
mod token;

pub use balanced::{Balanced, Part};
pub use declaration::{
    Enumeration, Formal, Formals, Function, Member, Pair, PairValue, Pairs, Skipped, State, States,
    Structure, Symbol,
};
pub use expression::{Args, Expr, Operand, Operator, Suffix};
pub use item::{Item, Tree};
pub use machine::{
    Action, Decl, InPort, Literal, Machine, Names, NextState, Object, OutPort, Parameter,
    Transition,
};
pub use name::{Name, TypeName};
pub use span::Span;
pub use statement::{Block, ElseIf, If, PrintWord, Stmt};
pub use token::{Sign, TokenKind, Word};
