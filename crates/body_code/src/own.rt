use crate::left::NameAt;
use ruby_base::Seq;
use ruby_value::Kind;

/// A local for what code sets aside for a moment. A body has one for each kind that it sets aside.
#[derive(Clone, Copy)]
pub struct Scratch {
    pub kind: Kind,
    /// The local's number.
    pub slot: u16,
}

/// Locals for the fields of a message around an `enqueue`, by the number of its structure.
#[derive(Clone, Copy)]
pub struct MessageKept {
    pub structure: u16,
    /// The number of the first of these locals. They follow one another.
    pub first: u16,
}

/// The locals of a body, as far as its code is written.
#[derive(Drop)]
pub struct Locals {
    /// The kinds of all of them by their numbers. The arguments are the first.
    pub kinds: Seq<Kind>,
    /// Those of them that are set aside for.
    pub scratch: Seq<Scratch>,
    pub kept: Seq<MessageKept>,
}

/// What a body has of its own at a place of its code.
#[derive(Drop)]
pub struct Own {
    /// The names, the innermost first. A name hides those of its text after it.
    pub names: Seq<NameAt>,
    pub locals: Locals,
}
