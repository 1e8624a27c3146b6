//! Whether two trees are the same, spans aside.
#![tactic(auto)]

mod balanced;
mod declaration;
mod expression;
mod list;
mod machine;
mod statement;
mod token;
mod tree;

pub use tree::same;
