use ruby_base::Seq;
use ruby_symbols::Next;
use slicc_ast::tree::Span;

/// What a machine does on an event in a state: one pair's part of a written transition. All numbers count from 0 within the
/// machine, in the order of the text.
#[derive(Drop)]
pub struct Row {
    pub state: u16,
    pub event: u16,
    /// The state after it, which is `state` where the transition has none.
    pub next: Next,
    pub actions: Seq<u16>,
    /// The number of the written transition.
    pub transition: u32,
}

/// A written transition of a machine, its names as numbers, which count from 0 within the machine, in the order of the text.
#[derive(Drop)]
pub struct Written {
    pub states: Seq<u16>,
    pub events: Seq<u16>,
    /// The state after it, where the transition has one.
    pub next: Option<Next>,
    pub actions: Seq<u16>,
    pub span: Span,
}

/// What a protocol has, summed over its machines.
#[derive(Clone, Copy)]
pub struct Counts {
    pub machines: u64,
    pub states: u64,
    pub events: u64,
    /// The pairs of a state and an event of one machine that have a written transition.
    pub pairs: u64,
}
