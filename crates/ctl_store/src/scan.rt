ghost use Rattle.std.specs.Prelude.{◌≡◌, ◌≤◌, Ok, Some, IfSome, is_some};
ghost use Rattle.std.specs.Option.{option_copied};
ghost use Rattle.ctl_face.specs.Prelude.{Fits, IsLawful, last_cycle, HasRoutes, scan_view, again, Does, Reads, enqueue, pop, IsPlace, message_at, front_now, ready, required_front, recycle, TakesMessage, slots, stall, wake, wake_all};
ghost use Rattle.ctl_store.specs.Kept.{IsKept, ctl_of};
ghost use Rattle.ctl_store.specs.Scanned.{local_of};
ghost use Rattle.ctl_store.specs.Sealed.{IsOutcomeOf};
ghost use Rattle.ruby_value.specs.Prelude.{IsLine};

use crate::Outcome;
use crate::changes::Changes;
use crate::parts::Parts;
use crate::scratch::Scratch;
use ctl_face::{MachineSetup, MessageAt, Routes, Trouble};
use ruby_value::{Fields, Message};
use run_journal::FireNote;
use std::marker::Model;

/// A scan of the controller that a store keeps. A contract sees the local that it is.
#[derive(Drop)]
pub(crate) struct Scan<'a> {
    pub(crate) parts: &'a Parts,
    pub(crate) routes: &'a Routes,
    pub(crate) seed: u64,
    pub(crate) changes: Box<Changes>,
}

impl<'a> Model for Scan<'a> {
    ghost use Rattle.ctl_store.specs.Scanned.{IsScan, Scanned, scanned};
    ghost use Rattle.std.specs.Coded.{codes};
    ghost use Rattle.ctl_face.specs.contracts.routes.Routes as routes_type;
    ghost use Rattle.ctl_store.specs.contracts.changes.Changes as changes_type;
    ghost use Rattle.ctl_store.specs.contracts.parts.Parts as parts_type;

    ghost Value = { Scanned };

    ghost coded = { Prim.hlevel (codes, parts_type.the_row.coded, routes_type.the_row.coded, changes_type.the_row.coded) };

    ghost view = { λ s. scanned s.parts.now s.routes.now s.seed s.changes.value };

    ghost invariant = { λ s. IsScan (scanned s.parts.now s.routes.now s.seed s.changes.value) };
}

impl<'a> Scan<'a> {
    /// No scan yet has changed anything. It takes no memory.
    pub(crate) fn begin(
        scratch: Scratch,
        parts: &'a Parts,
        routes: &'a Routes,
        seed: u64,
        now: u64,
    ) -> Scan<'a>
        requires kept { IsKept parts.now }
        requires routes { HasRoutes parts.now.machine parts.now.me routes.now }
        requires cycle { now ≤ last_cycle }
        requires fits { Fits parts.now.machine parts.now.me (ctl_of parts.now) now }
        ensures { local_of result ≡ scan_view parts.now.machine (record { me = parts.now.me; seed = seed; routes = routes.now })
            now (ctl_of parts.now) }
    {
        let Scratch { mut changes } = scratch;
        changes.begin(parts, now);
        Scan {
            parts,
            routes,
            seed,
            changes,
        }
    }

    /// The lists of the scan, for another one.
    pub(crate) fn into_scratch(self) -> Scratch {
        Scratch {
            changes: self.changes,
        }
    }

    /// What holds of each scan. It does nothing.
    pub(crate) fn law(&self)
        ensures { IsLawful (local_of self.now) }
    {
        let _open = &self.seed;
    }

    pub(crate) fn now(&self) -> u64
        ensures { result ≡ (local_of self.now).now }
    {
        self.changes.mail.cycle()
    }

    pub(crate) fn me(&self) -> u32
        ensures { result ≡ (local_of self.now).actor.me }
    {
        self.parts.me
    }

    pub(crate) fn stalled(&self) -> bool
        ensures { result ≡ (local_of self.now).acts.again }
    {
        self.changes.mail.stalled()
    }

    pub(crate) fn seal(self, note: FireNote) -> Outcome
        ensures { IsOutcomeOf (local_of self.entry) note result }
    {
        Outcome {
            changes: self.changes,
            note,
        }
    }

    pub(crate) fn machine(&self) -> &MachineSetup
        ensures { result.now ≡ (local_of self.now).machine }
    {
        &self.parts.machine
    }
}

impl<'a> Scan<'a> {
    pub(crate) fn peek(&self, buffer: u16) -> Option<&Message>
        ensures { option_copied result ≡ front_now (local_of self.now) buffer }
    {
        ctl_mail::peek(&self.parts.mail, &self.changes.mail, buffer)
    }

    pub(crate) fn pop(&mut self, buffer: u16) -> Result<(), Trouble>
        ensures does { Does (pop (local_of self.old) buffer) result (local_of self.old) (local_of self.new) }
        ensures lawful { IsLawful (local_of self.new) }
    {
        ctl_mail::pop(
            &self.parts.mail,
            &mut self.changes.mail,
            self.parts.me,
            self.routes,
            buffer,
        )
    }

    pub(crate) fn recycle(&mut self, buffer: u16, latency: i64) -> Result<(), Trouble>
        ensures does { Does (recycle (local_of self.old) buffer latency) result (local_of self.old) (local_of self.new) }
        ensures lawful { IsLawful (local_of self.new) }
    {
        ctl_mail::recycle(&self.parts.mail, &mut self.changes.mail, buffer, latency)
    }

    pub(crate) fn again(&mut self) -> Result<(), Trouble>
        ensures does { Does (Ok (again (local_of self.old))) result (local_of self.old) (local_of self.new) }
        ensures lawful { IsLawful (local_of self.new) }
    {
        ctl_mail::again(&self.parts.mail, &mut self.changes.mail)
    }

    pub(crate) fn ready(&self, buffer: u16) -> bool
        ensures { result ≡ ready (local_of self.now) buffer }
    {
        ctl_mail::ready(&self.parts.mail, &self.changes.mail, buffer)
    }

    pub(crate) fn front(&self, buffer: u16) -> Result<Message, Trouble>
        ensures { Reads (required_front (local_of self.now) buffer) result }
    {
        ctl_mail::front(&self.parts.mail, &self.changes.mail, buffer)
    }

    pub(crate) fn front_at(&self, buffer: u16) -> Option<MessageAt>
        ensures there { is_some result ≡ ready (local_of self.now) buffer }
        ensures place { IfSome result (IsPlace (local_of self.now)) }
        ensures front { IfSome result (λ at. message_at (local_of self.now) at ≡ front_now (local_of self.now) buffer) }
    {
        ctl_mail::front_at(&self.parts.mail, &self.changes.mail, buffer)
    }

    pub(crate) fn message(&self, at: MessageAt) -> &Message
        requires place { IsPlace (local_of self.now) at }
        ensures { message_at (local_of self.now) at ≡ Some result.now }
    {
        ctl_mail::message(&self.parts.mail, at)
    }

    pub(crate) fn slots(&self, buffer: u16) -> Option<u64>
        ensures { result ≡ slots (local_of self.now) buffer }
    {
        ctl_mail::slots(
            &self.parts.mail,
            &self.changes.mail,
            &self.parts.machine,
            self.parts.me,
            self.routes,
            buffer,
        )
    }

    pub(crate) fn stall(&mut self, buffer: u16, line: u64) -> Result<(), Trouble>
        requires line { IsLine line }
        ensures does { Does (stall (local_of self.old) buffer line) result (local_of self.old) (local_of self.new) }
        ensures lawful { IsLawful (local_of self.new) }
    {
        ctl_mail::stall(&self.parts.mail, &mut self.changes.mail, buffer, line)
    }

    pub(crate) fn wake(&mut self, line: u64) -> Result<(), Trouble>
        ensures does { Does (Ok (wake (local_of self.old) line)) result (local_of self.old) (local_of self.new) }
        ensures lawful { IsLawful (local_of self.new) }
    {
        ctl_mail::wake(&self.parts.mail, &mut self.changes.mail, line)
    }

    pub(crate) fn wake_all(&mut self) -> Result<(), Trouble>
        ensures does { Does (Ok (wake_all (local_of self.old))) result (local_of self.old) (local_of self.new) }
        ensures lawful { IsLawful (local_of self.new) }
    {
        ctl_mail::wake_all(&self.parts.mail, &mut self.changes.mail)
    }

    pub(crate) fn send(&mut self, buffer: u16, latency: i64, fields: Fields) -> Result<(), Trouble>
        requires { TakesMessage (local_of self.old) buffer fields }
        ensures does { Does (enqueue (local_of self.old) buffer latency fields) result
            (local_of self.old) (local_of self.new) }
        ensures lawful { IsLawful (local_of self.new) }
    {
        let parts = self.parts;
        ctl_mail::send(
            &parts.mail,
            &mut self.changes.mail,
            &parts.machine,
            parts.me,
            self.seed,
            self.routes,
            buffer,
            latency,
            fields,
        )
    }
}
