// Numbers on the command line, and the values of options.
ghost use Rattle.std.specs.Prelude.{◌≡◌, ◌≤◌, ◌<◌, IfSome, IfNone, IsTrue, option_map};
ghost use Rattle.std.specs.List.{list_all};
ghost use Rattle.clap.specs.Walk.{first_of};
ghost use Rattle.ruby_options.specs.Prelude.{rows_given, are_digits, is_digit, number_in, number_of, number_within, order_in, order_named, switch_of, trace_in, value_of};

use crate::{Bounds, NumberOption, ORDER, Order, TRACE};
use clap::ArgMatches;

// More digits than this are no number.
const MOST_DIGITS: usize = 20;

fn is_digit(c: u8) -> bool
    ensures { result ≡ is_digit c }
{
    48 <= c && c <= 57
}

fn all_digits(word: &[u8]) -> bool
    ensures { result ≡ list_all is_digit word.now }
{
    word.iter().all(|c| is_digit(*c))
}

/// Whether a word is digits alone, and at least one.
pub(crate) fn are_digits(word: &[u8]) -> bool
    ensures { result ≡ are_digits word.now }
{
    !word.is_empty() && all_digits(word)
}

// The value of digits, or none where it is above the greatest.
fn value_up_to(greatest: u64, digits: &[u8]) -> Option<u64>
    requires { IsTrue (list_all is_digit digits.now) }
    ensures some { IfSome result (λ n. (n ≡ value_of digits.now) × (n ≤ greatest)) }
    ensures none { IfNone result (greatest < value_of digits.now) }
{
    let mut value = 0u64;
    for c in digits {
        let next = u128::from(value) * 10 + u128::from(*c - 48);
        if u128::from(greatest) < next {
            return None;
        }
        value = next as u64;
    }
    Some(value)
}

/// The number that a word is, if it is one within the bounds.
pub(crate) fn number_within(bounds: Bounds, word: &str) -> Option<u64>
    ensures { result ≡ number_within bounds word.now }
{
    let digits = word.as_bytes();
    if MOST_DIGITS < digits.len() || !are_digits(digits) {
        return None;
    }
    let value = value_up_to(bounds.1, digits)?;
    if value < bounds.0 {
        return None;
    }
    Some(value)
}

// The word that is given for an option. Where nothing is given, no option is.
fn word_given<'a>(given: Option<&ArgMatches<'a>>, name: &str) -> Option<&'a str>
    ensures { option_map (λ word. word.now) result ≡ first_of name.now (rows_given given.entry) }
{
    match given {
        None => None,
        Some(matches) => matches.get_str(name),
    }
}

/// An option's number: the one that is given, or its default. It is none where the word given is no number within the
/// option's bounds.
#[tactic(auto, unfolding(crate::specs::Numbers::number_in))]
pub(crate) fn number_in(given: Option<&ArgMatches<'_>>, option: NumberOption) -> Option<u64>
    ensures { result ≡ number_in (rows_given given.entry) (option.entry.0.now, option.entry.1, option.entry.2) }
{
    let (name, bounds, default) = option;
    match word_given(given, name) {
        None => Some(default),
        Some(word) => number_within(bounds, word),
    }
}

/// An option's number, or its default where the word given is no number within the option's bounds.
#[tactic(auto, unfolding(crate::specs::Numbers::number_of))]
pub(crate) fn number_of(given: Option<&ArgMatches<'_>>, option: NumberOption) -> u64
    ensures { result ≡ number_of (rows_given given.entry) (option.entry.0.now, option.entry.1, option.entry.2) }
{
    number_in(given, option).unwrap_or(option.2)
}

// The switch that a word is.
fn switch_of(word: &str) -> Option<bool>
    ensures { result ≡ switch_of word.now }
{
    if word.as_bytes() == b"on".as_slice() {
        Some(true)
    } else if word.as_bytes() == b"off".as_slice() {
        Some(false)
    } else {
        None
    }
}

/// Whether a run is traced: it is, where nothing else is given. It is none where the word given is neither `on` nor `off`.
#[tactic(auto, unfolding(crate::specs::Numbers::trace_in))]
pub(crate) fn trace_in(given: Option<&ArgMatches<'_>>) -> Option<bool>
    ensures { result ≡ trace_in (rows_given given.entry) }
{
    match word_given(given, TRACE) {
        None => Some(true),
        Some(word) => switch_of(word),
    }
}

// The order that a word names.
fn order_named(word: &str) -> Option<Order>
    ensures { result ≡ order_named word.now }
{
    if word.as_bytes() == b"journal".as_slice() {
        Some(Order::Journal)
    } else if word.as_bytes() == b"cycle".as_slice() {
        Some(Order::Cycle)
    } else {
        None
    }
}

/// The order of a run's text: that of the journal, where nothing else is given. It is none where the word given is neither `journal` nor
/// `cycle`.
#[tactic(auto, unfolding(crate::specs::Numbers::order_in))]
pub(crate) fn order_in(given: Option<&ArgMatches<'_>>) -> Option<Order>
    ensures { result ≡ order_in (rows_given given.entry) }
{
    match word_given(given, ORDER) {
        None => Some(Order::Journal),
        Some(word) => order_named(word),
    }
}
