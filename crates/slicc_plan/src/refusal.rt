use slicc_ast::tree::Span;

/// Why a protocol is refused.
#[derive(Clone, Copy)]
pub enum Refusal {
    /// The first of the rules that it breaks.
    Rule {
        /// The number in the rule's code, 1 to 20.
        number: u8,
        /// What breaks the rule, whose first byte is the place that is told.
        place: Span,
        /// The second place that the rule speaks of, where it speaks of two.
        other: Option<Span>,
    },
    NoMemory,
}
