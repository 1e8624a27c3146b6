ghost use Rattle.std.specs.Prelude.{◌≡◌, ◌≤◌, ◌<◌, IfOk, length, slice_get};
ghost use Rattle.sequencer.specs.Prelude.{after_drive, after_issuing, after_taking, FitSeats};
ghost use Rattle.random_tester.specs.Law.{tester_lawful, tester_lasting};
ghost use Rattle.random_tester.specs.State.{made, opening, with_slot};
ghost use Rattle.random_tester.specs.Turn.{act, after_check, finished_from, judged, took, tester_drive, tester_needs};

use crate::late::first_late;
use crate::slot::{Slot, first_difference, is_to, request_of, value_at};
use pcg_words::Words;
use sequencer::{Answer, Driver, DriverEnd, Finding, Issued, NoMemory, Seats};
use std::alloc::Global;
use std::marker::Model;

/// The driver that stores bytes 0 to 3 of its lines, loads them again and compares them, each line in a slot of its own. In
/// every tenth cycle it draws a slot and a seat and issues what that slot asks for. What it does is `tester_drive`; a contract
/// sees it as its `State`.
#[derive(Drop)]
pub struct Tester {
    words: Words,
    checks: u64,
    deadlock: u64,
    slots: Vec<Slot>,
    passed: u64,
}

impl Model for Tester {
    ghost use Rattle.std.specs.Prelude.{◌≤◌, vec_len};
    ghost use Rattle.random_tester.specs.State.{State};

    ghost Value = { State };

    ghost view = { λ t. record { words = t.words; checks = t.checks; deadlock = t.deadlock; slots = t.slots.items; passed = t.passed } };

    ghost invariant = { λ t. (1 ≤ vec_len t.slots) × (vec_len t.slots ≤ 1024) };
}

const FRESH: Slot = Slot {
    stored: 0,
    first: 0,
    waits: None,
};

impl Tester {
    /// The tester of the lines below a number, which is 1 to 1,024. It draws from the words of a stream, as an actor of that
    /// number does; `checks` have to pass, and a request that is outstanding for `deadlock` cycles is a finding.
    pub fn new(
        alloc: Global,
        seed: u64,
        stream: u64,
        lines: u64,
        checks: u64,
        deadlock: u64,
    ) -> Result<Tester, NoMemory>
        requires some { 1 ≤ lines }
        requires at_most { lines ≤ 1024 }
        ensures made { IfOk result (λ t. t ≡ made seed stream lines checks deadlock) }

        // It is at its opening.
        ensures opening { IfOk result (λ t. opening t ≡ t) }
    {
        let slots = vec![in alloc; FRESH; lines as usize]?;
        Ok(Tester {
            words: Words::new(seed, stream),
            checks,
            deadlock,
            slots,
            passed: 0,
        })
    }

    // The slot of a line, if it has one.
    fn slot_of(&self, line: u64) -> Option<Slot>
        ensures { result ≡ slice_get self.now.slots line }
    {
        self.slots.get(line as usize).copied()
    }

    // Puts a line's slot.
    fn put(&mut self, line: u64, slot: Slot)
        requires { line < length self.old.slots }
        ensures { self.new ≡ with_slot self.old line slot }
    {
        self.slots[line as usize] = slot;
    }

    // One more check has passed at a line, whose slot begins again.
    fn pass_check(&mut self, line: u64) -> Option<Finding>
        requires { line < length self.old.slots }
        ensures tester { self.new ≡ (after_check self.old line).tester }
        ensures finding { result ≡ (after_check self.old line).finding }
    {
        self.put(line, FRESH);
        match self.passed.checked_add(1) {
            Some(passed) if passed < self.checks => {
                self.passed = passed;
                None
            }
            _ => {
                self.passed = self.checks;
                Some(Finding::Passed {
                    checks: self.checks,
                })
            }
        }
    }

    // What an answer that was taken at a seat makes of the tester.
    fn judge(&mut self, seat: u32, controller: u32, a: &Answer) -> Option<Finding>
        ensures tester { self.new
            ≡ (judged self.old (record { seat = seat; controller = controller; answer = a.now })).tester }
        ensures finding { result
            ≡ (judged self.old (record { seat = seat; controller = controller; answer = a.now })).finding }
    {
        let line = a.asked.line;
        let slot = self.slot_of(line)?;
        if !is_to(seat, controller, a, &slot.waits) {
            return None;
        }
        if slot.stored < 4 {
            let stored = slot.stored + 1;
            self.put(
                line,
                Slot {
                    stored,
                    first: slot.first,
                    waits: None,
                },
            );
            return None;
        }
        match first_difference(slot.first, &a.block.bytes) {
            Some(k) => Some(Finding::Incoherent {
                controller,
                line,
                offset: k,
                expected: value_at(slot.first, k),
                found: a.block.bytes[k as usize],
            }),
            None => self.pass_check(line),
        }
    }

    // Takes the finished requests, up to a finding.
    fn take<S: Seats>(&mut self, seats: &mut S) -> Option<Finding>
        ensures tester { self.new
            ≡ (took self.old (finished_from 0 (S.view seats.old).kept.seats)).tester }
        ensures seats { (S.view seats.new).kept.seats
            ≡ after_taking (S.view seats.old).kept.seats
            (took self.old (finished_from 0 (S.view seats.old).kept.seats)).taken }
        ensures issued { (S.view seats.new).kept.issued ≡ (S.view seats.old).kept.issued }
        ensures room { (S.view seats.old).room ≤ (S.view seats.new).room }
        ensures finding { result
            ≡ (took self.old (finished_from 0 (S.view seats.old).kept.seats)).finding }
    {
        let mut k = 0;
        while k < seats.count() {
            let controller = seats.controller(k);
            match seats.take_done(k) {
                Some(a) => {
                    if let Some(found) = self.judge(k, controller, &a) {
                        return Some(found);
                    }
                }
                None => k += 1,
            }
        }
        None
    }

    // Draws a slot, and issues what it asks for.
    fn act<S: Seats>(&mut self, now: u64, seats: &mut S)
        requires seats { 1 ≤ length (S.view seats.old).kept.seats }
        requires room { 1 ≤ (S.view seats.old).room }
        ensures tester { self.new ≡ (act self.old (S.view seats.old).kept.seats now).tester }
        ensures seats { (S.view seats.new).kept ≡ after_issuing (S.view seats.old).kept
            (act self.old (S.view seats.old).kept.seats now).issued }
    {
        let lines = self.lines();
        let line = u64::from(self.words.below(lines));
        let Some(slot) = self.slot_of(line) else {
            return;
        };
        if slot.waits.is_some() {
            return;
        }
        let seat = self.words.below(seats.count());
        let first = if slot.stored == 0 {
            self.words.below(256) as u8
        } else {
            slot.first
        };
        let asked = request_of(line, &Slot { first, ..slot }, now);
        if seats.issue(seat, asked) {
            let waits = Some(Issued { seat, asked });
            self.put(
                line,
                Slot {
                    stored: slot.stored,
                    first,
                    waits,
                },
            );
        }
    }

    // How many lines there are.
    fn lines(&self) -> u32
        ensures value { result ≡ length self.now.slots }
        ensures some { 1 ≤ result }
        ensures at_most { result ≤ 1024 }
    {
        self.slots.len() as u32
    }

    // The points of a turn, up to a finding.
    fn find<S: Seats>(&mut self, now: u64, seats: &mut S) -> Option<Finding>
        requires seats { FitSeats 1 (S.view seats.old).kept.seats }
        requires reserved { tester_needs self.old now ≤ (S.view seats.old).room }
        ensures driver { self.new ≡ (tester_drive self.old (S.view seats.old).kept.seats now).driver }
        ensures seats { (S.view seats.new).kept ≡ after_drive (S.view seats.old).kept
            (tester_drive self.old (S.view seats.old).kept.seats now) }
        ensures finding { result ≡ (tester_drive self.old (S.view seats.old).kept.seats now).finding }
    {
        if let Some(found) = self.take(seats) {
            return Some(found);
        }
        if now % 10 != 0 {
            return None;
        }
        if let Some(found) = first_late(self.deadlock, now, seats) {
            return Some(found);
        }
        self.act(now, seats);
        None
    }
}

impl Driver for Tester {
    ghost drive = { tester_drive };

    ghost needs = { tester_needs };

    ghost least = { λ _. 1 };

    ghost opening = { opening };

    ghost lawful = { tester_lawful };

    ghost lasting = { tester_lasting };

    fn reserve<S: Seats>(&self, now: u64, seats: &mut S) -> Result<(), NoMemory> {
        if now % 10 == 0 {
            return seats.reserve(1);
        }
        Ok(())
    }

    fn turn<S: Seats>(&mut self, now: u64, seats: &mut S) -> DriverEnd {
        let next = Some((now / 10 + 1) * 10);
        let finding = self.find(now, seats);
        DriverEnd { next, finding }
    }
}
