ghost use Rattle.std.specs.Prelude.{◌≡◌, ◌≤◌, ◌+◌, [], ◌∷◌, length};
ghost use Rattle.sequencer.specs.Prelude.{after_drive, after_issuing, after_taking};
ghost use Rattle.controller_rows.specs.Law.{script_lawful, script_lasting};
ghost use Rattle.controller_rows.specs.Script.{count_due, due, first_answers, is_request, issued_of, left, may_be_issued, next_cycle, opening, script_drive, script_needs};

use sequencer::{Asked, Driver, DriverEnd, Issued, NoMemory, Seats};
use std::marker::Model;

/// The driver that issues the requests of a list, each at its seat in the cycle of its issue, and takes an answer of each seat at each
/// turn. What it does is `script_drive`; a contract sees it as its `State`.
#[derive(Drop)]
pub struct Script {
    requests: Vec<Issued>,
    done: usize,
}

impl Model for Script {
    ghost use Rattle.std.specs.Prelude.{◌≤◌, vec_len};
    ghost use Rattle.controller_rows.specs.Script.{State};

    ghost Value = { State };

    ghost view = { λ s. record { requests = s.requests.items; done = s.done } };

    ghost invariant = { λ s. s.done ≤ vec_len s.requests };
}

// Lines are below it.
const LINES: u64 = 1 << 58;

// Whether bytes of one line are asked for.
fn is_request(a: &Asked) -> bool
    ensures { result ≡ is_request a.now }
{
    a.line < LINES && a.size >= 1 && u32::from(a.offset) + u32::from(a.size) <= 64
}

// Takes the first answer of each seat.
fn take_first<S: Seats>(seats: &mut S)
    ensures seats { (S.view seats.new).kept.seats ≡ after_taking (S.view seats.old).kept.seats
        (first_answers (length (S.view seats.old).kept.seats) 0 (S.view seats.old).kept.seats) }
    ensures issued { (S.view seats.new).kept.issued ≡ (S.view seats.old).kept.issued }
    ensures room { (S.view seats.old).room ≤ (S.view seats.new).room }
{
    for k in 0..seats.count() {
        let _answer = seats.take_done(k);
    }
}

// Whether a request is one of this cycle, at a seat that is there, and such as a sequencer may have.
fn may_be_issued<S: Seats>(now: u64, i: &Issued, seats: &S) -> bool
    ensures { result ≡ may_be_issued now (S.view seats.now).kept.seats i.now }
{
    i.asked.issued == now && i.seat < seats.count() && is_request(&i.asked)
}

// Issues a request, if it can be issued.
fn issue_one<S: Seats>(now: u64, i: &Issued, seats: &mut S)
    requires { 1 ≤ (S.view seats.old).room }
    ensures seats { (S.view seats.new).kept ≡ after_issuing (S.view seats.old).kept
        (issued_of now (S.view seats.old).kept.seats (i.now ∷ [])) }
    ensures room { (S.view seats.old).room ≤ (S.view seats.new).room + 1 }
{
    if may_be_issued(now, i, seats) {
        let _issued = seats.issue(i.seat, i.asked);
    }
}

// Issues those of these requests that can be issued.
fn issue_each<S: Seats>(now: u64, requests: &[Issued], seats: &mut S)
    requires { length requests.now ≤ (S.view seats.old).room }
    ensures { (S.view seats.new).kept ≡ after_issuing (S.view seats.old).kept
        (issued_of now (S.view seats.old).kept.seats requests.now) }
{
    for i in requests {
        issue_one(now, i, seats);
    }
}

// How many of the first of these requests have a cycle that has come.
fn count_due(now: u64, requests: &[Issued]) -> usize
    ensures value { result ≡ count_due now requests.now }
    ensures within { result ≤ length requests.now }
{
    let mut count = 0;
    for i in requests {
        if i.asked.issued > now {
            return count;
        }
        count += 1;
    }
    count
}

impl Script {
    /// The driver of these requests, whose cycles ascend. It takes no memory.
    pub fn new(requests: Vec<Issued>) -> Script
        ensures made { result ≡ record { requests = requests.items; done = 0 } }

        // It is at its opening.
        ensures opening { opening result ≡ result }
    {
        Script { requests, done: 0 }
    }

    // How many requests are due in a cycle.
    fn count(&self, now: u64) -> usize
        ensures value { result ≡ count_due now (left self.now) }
        ensures within { self.now.done + result ≤ length self.now.requests }
    {
        count_due(now, &self.requests[self.done..])
    }

    // The requests that are due in a cycle.
    fn due(&self, now: u64) -> &[Issued]
        ensures { result.now ≡ due now (left self.now) }
    {
        let count = self.count(now);
        let left = &self.requests[self.done..];
        &left[..count]
    }

    // Takes answers and issues what is due.
    fn act<S: Seats>(&self, now: u64, seats: &mut S)
        requires { script_needs self.now now ≤ (S.view seats.old).room }
        ensures { (S.view seats.new).kept ≡ after_drive (S.view seats.old).kept
            (script_drive self.now (S.view seats.old).kept.seats now) }
    {
        take_first(seats);
        issue_each(now, self.due(now), seats);
    }

    // The cycle of the next request.
    fn next(&self) -> Option<u64>
        ensures { result ≡ next_cycle self.now }
    {
        match self.requests.get(self.done) {
            Some(i) => Some(i.asked.issued),
            None => None,
        }
    }
}

impl Driver for Script {
    ghost drive = { script_drive };

    ghost needs = { script_needs };

    ghost least = { λ _. 0 };

    ghost opening = { opening };

    ghost lawful = { script_lawful };

    ghost lasting = { script_lasting };

    fn reserve<S: Seats>(&self, now: u64, seats: &mut S) -> Result<(), NoMemory> {
        match u32::try_from(self.count(now)) {
            Ok(requests) => seats.reserve(requests),
            Err(_) => Err(NoMemory),
        }
    }

    fn turn<S: Seats>(&mut self, now: u64, seats: &mut S) -> DriverEnd {
        self.act(now, seats);
        self.done += self.count(now);
        DriverEnd {
            next: self.next(),
            finding: None,
        }
    }
}
