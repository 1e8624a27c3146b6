// The lists in which requests and answers are kept: requests by ascending line, and answers by ascending line and, within a
// line, in the order in which they were finished.
ghost use Rattle.std.specs.Prelude.{◌≡◌, ◌≤◌, ◌<◌, ◌+◌, None, Some, IfSome, IsSome, insert, filter, vec_len, vec_capacity};
ghost use Rattle.std.specs.FinMap as map;
ghost use Rattle.std.specs.List.{All, AllPairs};
ghost use Rattle.std.specs.Option.{option_copied};
ghost use Rattle.std.specs.VecDeque.{deque_len, deque_capacity};
ghost use Rattle.sequencer.specs.Prelude.{AreAnswers, AreRequests, ComesBefore, IsAnswer, NoLater, outstanding_of, IsPlaceOf, is_above, oldest_of};
ghost use Rattle.ruby_value.specs.Prelude.{IsRequest, first_of, with_answer};

use crate::{Answer, Asked};
use std::collections::VecDeque;

/// Where the request of a line is, or where it goes: before the first one of no lesser line.
pub(crate) fn place_of(requests: &[Asked], line: u64) -> usize
    requires { AllPairs ComesBefore requests.now }
    ensures { IsPlaceOf requests.now line result }
{
    for (at, a) in requests.iter().enumerate() {
        if a.line >= line {
            return at;
        }
    }
    requests.len()
}

/// The request of a line, if it has one.
pub(crate) fn request_in(requests: &[Asked], line: u64) -> Option<Asked>
    requires { All IsRequest requests.now }
    ensures value { result ≡ map.get (outstanding_of requests.now) line }
    ensures request { IfSome result (λ a. (a.line ≡ line) × IsRequest a) }
{
    for a in requests {
        if a.line == line {
            return Some(*a);
        }
    }
    None
}

/// Puts a request of a line that has none into its place, where there is room.
pub(crate) fn put_request(requests: &mut Vec<Asked>, a: Asked)
    requires kept { AreRequests requests.old.items }
    requires request { IsRequest a }
    requires none { map.get (outstanding_of requests.old.items) a.line ≡ None }
    requires room { vec_len requests.old < vec_capacity requests.old }
    ensures kept { AreRequests requests.new.items }
    ensures after { outstanding_of requests.new.items
        ≡ map.insert (outstanding_of requests.old.items) a.line a }
    ensures len { vec_len requests.new ≡ vec_len requests.old + 1 }
    ensures capacity { vec_capacity requests.old ≤ vec_capacity requests.new }
{
    let at = place_of(requests, a.line);
    match requests.insert(at, a) {
        Ok(()) => {}
        Err(_) => unreachable!(),
    }
}

/// Takes the request of a line out.
pub(crate) fn take_request(requests: &mut Vec<Asked>, line: u64) -> Asked
    requires kept { AreRequests requests.old.items }
    requires there { IsSome (map.get (outstanding_of requests.old.items) line) }
    ensures value { map.get (outstanding_of requests.old.items) line ≡ Some result }
    ensures request { IsRequest result }
    ensures kept { AreRequests requests.new.items }
    ensures after { outstanding_of requests.new.items
        ≡ map.remove (outstanding_of requests.old.items) line }
    ensures len { vec_len requests.new + 1 ≡ vec_len requests.old }
    ensures capacity { vec_capacity requests.new ≡ vec_capacity requests.old }
{
    let at = place_of(requests, line);
    requests.remove(at)
}

/// The request of the least issue cycle, and of those the one of the least line.
pub(crate) fn oldest_of(requests: &[Asked]) -> Option<&Asked>
    ensures { option_copied result ≡ oldest_of requests.now }
{
    let mut oldest: Option<&Asked> = None;
    let mut at = requests.len();
    while at > 0 {
        at -= 1;
        let a = &requests[at];
        oldest = match oldest {
            Some(b) if b.issued < a.issued => Some(b),
            _ => Some(a),
        };
    }
    oldest
}

// Whether the request's line is above the given one, if one is given.
fn is_above(a: &Asked, line: Option<u64>) -> bool
    ensures { result ≡ is_above line a.now }
{
    match line {
        Some(line) => line < a.line,
        None => true,
    }
}

/// The first request of a line above the given one, or the first one.
pub(crate) fn next_in(requests: &[Asked], line: Option<u64>) -> Option<&Asked>
    requires { All IsRequest requests.now }
    ensures value { option_copied result ≡ first_of (filter (is_above line) requests.now) }
    ensures request { IfSome result (λ a. IsRequest a.now) }
{
    for a in requests {
        if is_above(a, line) {
            return Some(a);
        }
    }
    None
}

// Where an answer goes: after the last one of no greater line. It looks from the back.
fn place_of_answer(answers: &VecDeque<Answer>, a: &Answer) -> usize
    requires { AllPairs NoLater answers.now.items }
    ensures bound { result ≤ deque_len answers.now }
    ensures place { insert answers.now.items result a.now ≡ with_answer answers.now.items a.now }
{
    let mut at = answers.len();
    while at > 0 && answers[at - 1].asked.line > a.asked.line {
        at -= 1;
    }
    at
}

/// Puts an answer after those of its line, where there is room.
pub(crate) fn put_answer(answers: &mut VecDeque<Answer>, a: Answer)
    requires kept { AreAnswers answers.old.items }
    requires request { IsAnswer a }
    requires room { deque_len answers.old < deque_capacity answers.old }
    ensures kept { AreAnswers answers.new.items }
    ensures after { answers.new.items ≡ with_answer answers.old.items a }
    ensures len { deque_len answers.new ≡ deque_len answers.old + 1 }
    ensures capacity { deque_capacity answers.old ≤ deque_capacity answers.new }
{
    let at = place_of_answer(answers, &a);
    match answers.insert(at, a) {
        Ok(()) => {}
        Err(_) => unreachable!(),
    }
}
