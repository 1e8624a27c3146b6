// Messages that wait are woken: kept as a change.
ghost use Rattle.std.specs.Prelude.{◌≡◌, ◌≤◌, length, ◌++◌, [], ◌∷◌, None, Some, Ok, IfOk, OnOk, OnErr};
ghost use Rattle.ctl_mail.specs.MailOf.{IsMail, mail_of};
ghost use Rattle.ctl_mail.specs.MailView.{MailDoes, view_wake, view_wake_all, view_woken};
ghost use Rattle.ctl_mail.specs.Moves.{act_of, is_woken, with_moves};
ghost use Rattle.ctl_mail.specs.Numbers.{Adds, NumbersRise};
ghost use Rattle.ctl_mail.specs.declared.moves.Waking.TheVariants as waking;
ghost use Rattle.ctl_mail.specs.Told.{AreOf, IsWoken, IsWokenAmong, IsWokenIn, IsWokenKept, IsWokenStalled, IsWokenUnder, changed_view, told_by};

use crate::moved::Moves;
use crate::moves::Waking;
use crate::{MailAct, MailChanges, MailStore, numbers};
use ctl_face::Trouble;
use ruby_value::{MsgNo, NoMemory};
use stall_map::StallMap;

impl Waking {
    fn act(self) -> MailAct
        ensures { result ≡ act_of self }
    {
        match self {
            Waking::Line(line) => MailAct::Wake(line),
            Waking::All => MailAct::WakeAll,
        }
    }
}

impl MailChanges {
    // Keeps that the messages of these numbers wait no longer.
    fn keep_woken(&mut self, waking: Waking, numbers: &[MsgNo]) -> Result<(), NoMemory>
        ensures ok { OnOk result (let old = told_by self.old in told_by self.new ≡ record old {
          log = old.log ++ act_of waking ∷ [];
          acts = record old.acts { woken = old.acts.woken ++ numbers.now };
          moves = with_moves old.moves None numbers.now;
        }) }
        ensures err { OnErr result (told_by self.new ≡ told_by self.old) }
    {
        self.moves.reserve(numbers.len())?;
        self.log.reserve(1)?;
        self.woken.extend_from_slice(numbers)?;
        self.log.push_reserved(waking.act());
        put_back_moves(&mut self.moves, numbers);
        Ok(())
    }
}

// Keeps that the messages of these numbers wait no longer, where there is room for it.
fn put_back_moves(moves: &mut Moves, numbers: &[MsgNo])
    requires { length numbers.now ≤ moves.old.room }
    ensures { moves.new.kept ≡ with_moves moves.old.kept None numbers.now }
{
    for number in numbers {
        moves.put_reserved(*number, None);
    }
}

// Adds the number of a message that waited so before the scan, if it is woken now.
fn add_if_woken(
    numbers: &mut Vec<MsgNo>,
    changes: &MailChanges,
    waking: Waking,
    number: MsgNo,
    before: Option<u64>,
) -> Result<(), NoMemory>
    requires { NumbersRise numbers.old.items }
    ensures { OnOk result (Adds numbers.old.items
        (λ n. IsWoken (told_by changes.now) waking number before × (number ≡ n)) numbers.new.items) }
{
    if changes.is_woken(waking, number, before) {
        return numbers::add(numbers, number);
    }
    Ok(())
}

// Adds the numbers of the messages that are woken of those that were stalled under a line before the scan.
fn add_under(
    numbers: &mut Vec<MsgNo>,
    stalls: &StallMap,
    changes: &MailChanges,
    line: u64,
) -> Result<(), NoMemory>
    requires { NumbersRise numbers.old.items }
    ensures { OnOk result (Adds numbers.old.items
        (IsWokenUnder stalls.now.kept (told_by changes.now) line) numbers.new.items) }
{
    let under = stalls.under(line);
    for number in under {
        add_if_woken(numbers, changes, Waking::Line(line), *number, Some(line))?;
    }
    Ok(())
}

// Adds the numbers of the messages that are woken of all that were stalled before the scan.
fn add_all(
    numbers: &mut Vec<MsgNo>,
    stalls: &StallMap,
    changes: &MailChanges,
) -> Result<(), NoMemory>
    requires { NumbersRise numbers.old.items }
    ensures { OnOk result (Adds numbers.old.items
        (IsWokenStalled stalls.now.kept (told_by changes.now) waking.All) numbers.new.items) }
{
    // Their numbers ascend, so that each is reached once.
    let _waiting = stalls.len();
    let mut last = None;
    while let Some(next) = stalls.next_after(last) {
        let number = next.1.number;
        add_if_woken(numbers, changes, Waking::All, number, Some(next.0))?;
        last = Some(number);
    }
    Ok(())
}

// Adds the numbers of the messages that are woken of those that were stalled before the scan, but for those that the scan has moved.
fn add_stalled(
    numbers: &mut Vec<MsgNo>,
    stalls: &StallMap,
    changes: &MailChanges,
    waking: Waking,
) -> Result<(), NoMemory>
    requires { NumbersRise numbers.old.items }
    ensures { OnOk result (Adds numbers.old.items
        (IsWokenKept stalls.now.kept (told_by changes.now) waking) numbers.new.items) }
{
    match waking {
        Waking::Line(line) => add_under(numbers, stalls, changes, line),
        Waking::All => add_all(numbers, stalls, changes),
    }
}

// Adds the numbers of the messages that are woken of those that the scan itself has stalled.
fn add_stalled_now(
    numbers: &mut Vec<MsgNo>,
    changes: &MailChanges,
    waking: Waking,
) -> Result<(), NoMemory>
    requires { NumbersRise numbers.old.items }
    ensures { let told = told_by changes.now in
        OnOk result (Adds numbers.old.items (IsWokenAmong told.acts.stalled told waking) numbers.new.items) }
{
    for number in &changes.stalled {
        add_if_woken(numbers, changes, waking, *number, None)?;
    }
    Ok(())
}

// The numbers of the messages that are woken.
fn woken(store: &MailStore, changes: &MailChanges, waking: Waking) -> Result<Vec<MsgNo>, NoMemory>
    requires { AreOf store.now (told_by changes.now) }
    ensures { IfOk result (λ numbers. Adds []
        (IsWokenIn store.now.stalls.kept (told_by changes.now) waking) numbers.items) }
{
    let mut numbers = Vec::new(changes.alloc);
    add_stalled(&mut numbers, &store.stalls, changes, waking)?;
    add_stalled_now(&mut numbers, changes, waking)?;
    Ok(numbers)
}

fn wake_those(store: &MailStore, changes: &mut MailChanges, waking: Waking) -> Result<(), Trouble>
    requires mail { IsMail store.now }
    requires changes { AreOf store.now (told_by changes.old) }
    ensures does { let old = changed_view (mail_of store.now) (told_by changes.old) in
        MailDoes (Ok (view_woken old (λ o. is_woken waking o.waiting))) result old (changed_view (mail_of store.now) (told_by changes.new)) }
    ensures changes { AreOf store.now (told_by changes.new) }
    ensures cycle { (told_by changes.new).cycle ≡ (told_by changes.old).cycle }
{
    let numbers = woken(store, changes, waking)?;
    changes.keep_woken(waking, &numbers)?;
    Ok(())
}

/// Wakes the messages that wait under a line: they wait no longer, and their numbers, in ascending order, are among the woken
/// ones. No fault comes. Without memory the changes are as they were.
pub fn wake(store: &MailStore, changes: &mut MailChanges, line: u64) -> Result<(), Trouble>
    requires mail { IsMail store.now }
    requires changes { AreOf store.now (told_by changes.old) }
    ensures does { let old = changed_view (mail_of store.now) (told_by changes.old) in
        MailDoes (Ok (view_wake old line)) result old (changed_view (mail_of store.now) (told_by changes.new)) }
    ensures changes { AreOf store.now (told_by changes.new) }
    ensures cycle { (told_by changes.new).cycle ≡ (told_by changes.old).cycle }
{
    wake_those(store, changes, Waking::Line(line))
}

/// Wakes all messages that wait, as `wake` does those under a line.
pub fn wake_all(store: &MailStore, changes: &mut MailChanges) -> Result<(), Trouble>
    requires mail { IsMail store.now }
    requires changes { AreOf store.now (told_by changes.old) }
    ensures does { let old = changed_view (mail_of store.now) (told_by changes.old) in
        MailDoes (Ok (view_wake_all old)) result old (changed_view (mail_of store.now) (told_by changes.new)) }
    ensures changes { AreOf store.now (told_by changes.new) }
    ensures cycle { (told_by changes.new).cycle ≡ (told_by changes.old).cycle }
{
    wake_those(store, changes, Waking::All)
}
