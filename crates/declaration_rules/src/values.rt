//! The values of attributes, and the literals of parameters.
ghost use Rattle.std.specs.Prelude.{◌≡◌, [], cond};
ghost use Rattle.std.specs.Option.{option_map};
ghost use Rattle.slicc_plan.specs.Prelude.{is_same_type, first_after, is_built_in, bad_attributes, bad_buffer_attributes, bad_entries, bad_literal, bad_object_attributes, is_either, is_number_within, is_right_literal, literal_span};
ghost use Rattle.declared_types.specs.Prelude.{as_nature, type_of};
ghost use Rattle.declaration_rules.specs.Prelude.{bad_pair, told_bad};

use crate::field_rules::nature_in;
use crate::numbers::number_value;
use crate::rule::earlier_at;
use declared_types::{KnownType, Nature, attribute_in, is_word};
use slicc_ast::tree::{Literal, Pair, PairValue, Pairs};
use slicc_plan::{Broken, BuiltInType, Rule, Span};

// The first broken rule, where a value that has to be right is or isn't.
pub fn told_bad(first: Option<Broken>, is_right: bool, place: Span) -> Option<Broken>
    ensures { result ≡ first_after first (told_bad is_right place) }
{
    if is_right {
        return first;
    }
    earlier_at(first, Rule::BadValue, 0, place)
}

pub fn is_either(value: &PairValue, one: &[u8], other: &[u8]) -> bool
    ensures { result ≡ is_either one.now other.now value.now }
{
    is_word(value, one) || is_word(value, other)
}

fn is_number_within(value: &PairValue, low: u64, high: u64) -> bool
    ensures { result ≡ is_number_within low high value.now }
{
    match number_value(value) {
        None => false,
        Some(n) => low <= n && n <= high,
    }
}

fn judge_word_pair(
    first: Option<Broken>,
    p: &Pair,
    key: &[u8],
    one: &[u8],
    other: &[u8],
) -> Option<Broken>
    ensures { result ≡ first_after first (bad_pair key.now (is_either one.now other.now) p.now) }
{
    match attribute_in(p, key) {
        None => first,
        Some(a) => told_bad(first, is_either(a.value, one, other), a.place),
    }
}

fn judge_number_pair(
    first: Option<Broken>,
    p: &Pair,
    key: &[u8],
    low: u64,
    high: u64,
) -> Option<Broken>
    ensures { result ≡ first_after first (bad_pair key.now (is_number_within low high) p.now) }
{
    match attribute_in(p, key) {
        None => first,
        Some(a) => told_bad(first, is_number_within(a.value, low, high), a.place),
    }
}

fn word_attributes(
    first: Option<Broken>,
    pairs: &Pairs,
    key: &[u8],
    one: &[u8],
    other: &[u8],
) -> Option<Broken>
    ensures { result ≡ first_after first (bad_attributes key.now (is_either one.now other.now) pairs.now) }
{
    let mut first = first;
    let items = pairs.items.as_slice();
    for p in items {
        first = judge_word_pair(first, p, key, one, other);
    }
    first
}

fn number_attributes(
    first: Option<Broken>,
    pairs: &Pairs,
    key: &[u8],
    low: u64,
    high: u64,
) -> Option<Broken>
    ensures { result ≡ first_after first (bad_attributes key.now (is_number_within low high) pairs.now) }
{
    let mut first = first;
    let items = pairs.items.as_slice();
    for p in items {
        first = judge_number_pair(first, p, key, low, high);
    }
    first
}

fn judge_buffer(first: Option<Broken>, pairs: &Pairs) -> Option<Broken>
    ensures { result ≡ first_after first (bad_buffer_attributes pairs.now) }
{
    let networked = word_attributes(first, pairs, b"network", b"To", b"From");
    let numbered = number_attributes(networked, pairs, b"virtual_network", 0, 15);
    word_attributes(numbered, pairs, b"ordered", b"true", b"false")
}

fn judge_if_buffer(first: Option<Broken>, is_buffer: bool, pairs: &Pairs) -> Option<Broken>
    ensures { result ≡ first_after first (cond is_buffer (bad_buffer_attributes pairs.now) []) }
{
    if is_buffer {
        judge_buffer(first, pairs)
    } else {
        first
    }
}

fn judge_if_table(first: Option<Broken>, is_table: bool, pairs: &Pairs) -> Option<Broken>
    ensures { result ≡ first_after first (cond is_table (bad_entries pairs.now) []) }
{
    if is_table {
        number_attributes(first, pairs, b"entries", 1, 256)
    } else {
        first
    }
}

/// Whether a name stands for this built-in type.
pub fn is_built_in(b: BuiltInType, t: Option<KnownType<'_>>) -> bool
    ensures { result ≡ is_built_in b (option_map type_of t.entry) }
{
    match t {
        Some(KnownType::BuiltIn(c)) => b == c,
        _ => false,
    }
}

/// The first broken rule, after the attributes of a parameter or an object of this type.
pub fn judge_object_attributes(
    first: Option<Broken>,
    t: Option<KnownType<'_>>,
    pairs: &Pairs,
) -> Option<Broken>
    ensures { result ≡ first_after first (bad_object_attributes (option_map type_of t.entry) pairs.now) }
{
    let first = judge_if_buffer(first, is_built_in(BuiltInType::Buffer, t), pairs);
    judge_if_table(first, is_built_in(BuiltInType::TbeTable, t), pairs)
}

fn is_right_literal(n: Nature, literal: &Literal) -> bool
    ensures { result ≡ is_right_literal (as_nature n) literal.now }
{
    match n {
        Nature::Number => matches!(literal, Literal::Number(..) | Literal::Minus(..)),
        Nature::Boolean => match literal {
            Literal::True(_) | Literal::False(_) => true,
            Literal::Quoted(text, _) => {
                text.as_slice() == b"True".as_slice() || text.as_slice() == b"False".as_slice()
            }
            Literal::Number(..) | Literal::Minus(..) => false,
        },
        Nature::Address
        | Nature::Enumeration
        | Nature::OtherValue
        | Nature::Structure
        | Nature::Table
        | Nature::Nothing => false,
    }
}

fn literal_span(literal: &Literal) -> Span
    ensures { result ≡ literal_span literal.now }
{
    match literal {
        Literal::Number(_, span)
        | Literal::Minus(_, span)
        | Literal::Quoted(_, span)
        | Literal::True(span)
        | Literal::False(span) => *span,
    }
}

/// The first broken rule, after the literal of a parameter of this type.
pub fn judge_literal(
    first: Option<Broken>,
    t: Option<KnownType<'_>>,
    literal: &Option<Literal>,
) -> Option<Broken>
    ensures { result ≡ first_after first (bad_literal (option_map type_of t.entry) literal.now) }
{
    let Some(t) = t else {
        return first;
    };
    match literal {
        None => first,
        Some(literal) => told_bad(
            first,
            is_right_literal(nature_in(t), literal),
            literal_span(literal),
        ),
    }
}
