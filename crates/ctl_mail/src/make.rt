// The acts on mail, made in a controller's mail as it is kept. They take no memory.
ghost use Rattle.std.specs.Prelude.{◌≡◌, ◌<◌, ◌≤◌, ◌+◌, ◌^◌, ℕ, [], ◌∷◌, true, IfNone, IfSome, OnOk, All, count_by, length};
ghost use Rattle.std.specs.FinMap as finite;
ghost use Rattle.ctl_face.specs.Prelude.{front, with_last, mail_with_mark, mail_with_arrival, mail_with_credit, mail_without};
ghost use Rattle.ctl_mail.specs.declared.act.MailAct.TheVariants as act;
ghost use Rattle.ctl_mail.specs.Log.{is_stall, is_wake};
ghost use Rattle.ctl_mail.specs.MailOf.{IsMail, IsNewIn, buffer_count, mail_of};
ghost use Rattle.ctl_mail.specs.Queues.{LosesNoRoom, LosesOneRoom, room_of};
ghost use Rattle.ctl_mail.specs.Room.{HasLastRoom, HasPlaces, HasPlacesToWake, HasRoom, KeepsRoom, LosesPlaces, credit_room, lent_room, mark_room};
ghost use Rattle.ctl_mail.specs.Told.{CopiesFit, CountsFit, IsMakeable, LentFit, after_act, changed_mail, counted_mail, told_by};

use crate::{
    MailAct, MailChanges, MailStore, credits, lasts, lent, marks, queues, stalls, wakings,
};
use ctl_face::Credit;
use ruby_value::{Message, NoMemory};

/// The mail with a mark.
pub(crate) fn mark(store: &mut MailStore, cycle: u64)
    requires mail { IsMail store.old }
    requires room { 0 < mark_room store.old }
    ensures after { mail_of store.new ≡ mail_with_mark (mail_of store.old) cycle }
    ensures mail { IsMail store.new }
    ensures buffers { buffer_count store.new ≡ buffer_count store.old }
    ensures room { mark_room store.old ≤ mark_room store.new + 1 }
    ensures buffers_stay { store.new.buffers ≡ store.old.buffers }
    ensures stalls { store.new.stalls ≡ store.old.stalls }
    ensures places { LosesPlaces store.old store.new 0 }
{
    marks::put(&mut store.marks, cycle);
}

// Takes the front of a buffer out, if it has one.
pub(crate) fn take(store: &mut MailStore, now: u64, buffer: u16) -> Option<Message>
    requires mail { IsMail store.old }
    ensures value { result ≡ front (mail_of store.old) buffer now }
    ensures taken { IfSome result (λ m. mail_of store.new ≡ mail_without (mail_of store.old) m) }
    ensures none { IfNone result (mail_of store.new ≡ mail_of store.old) }
    ensures mail { IsMail store.new }
    ensures buffers { buffer_count store.new ≡ buffer_count store.old }
    ensures new { IfSome result (λ m. IsNewIn (mail_of store.new) m.number) }
    ensures place { IfSome result (λ m. 0 < room_of store.new.buffers.items m.buffer) }
    ensures marks { store.new.marks ≡ store.old.marks }
    ensures stalls { store.new.stalls ≡ store.old.stalls }
    ensures rooms { LosesNoRoom store.old.buffers.items store.new.buffers.items }
    ensures home { IfSome result (λ m. m.buffer < buffer_count store.old) }
    ensures places { LosesPlaces store.old store.new 0 }
{
    queues::pop(&mut store.buffers, buffer, now)
}

/// Puts a message with a new number in, with a mark for its arrival.
pub(crate) fn put(store: &mut MailStore, m: Message)
    requires mail { IsMail store.old }
    requires new { IsNewIn (mail_of store.old) m.number }
    requires place { 0 < room_of store.old.buffers.items m.buffer }
    requires room { 0 < mark_room store.old }
    ensures after { mail_of store.new ≡ mail_with_arrival (mail_of store.old) m }
    ensures mail { IsMail store.new }
    ensures buffers { buffer_count store.new ≡ buffer_count store.old }
    ensures room { mark_room store.old ≤ mark_room store.new + 1 }
    ensures stalls { store.new.stalls ≡ store.old.stalls }
    ensures rooms { LosesOneRoom store.old.buffers.items store.new.buffers.items }
    ensures places { LosesPlaces store.old store.new 1 }
{
    let arrival = m.arrival;
    queues::put(&mut store.buffers, m);
    marks::put(&mut store.marks, arrival);
}

/// The mail without the front of a buffer, if it has one.
pub(crate) fn pop(store: &mut MailStore, now: u64, buffer: u16)
    requires mail { IsMail store.old }
    ensures after { mail_of store.new ≡ after_act now (mail_of store.old) (act.Pop buffer) }
    ensures mail { IsMail store.new }
    ensures buffers { buffer_count store.new ≡ buffer_count store.old }
    ensures marks { store.new.marks ≡ store.old.marks }
    ensures stalls { store.new.stalls ≡ store.old.stalls }
    ensures rooms { LosesNoRoom store.old.buffers.items store.new.buffers.items }
    ensures places { LosesPlaces store.old store.new 0 }
{
    let _taken = take(store, now, buffer);
}

/// The mail with the front of a buffer arriving again at a cycle, if it has one.
pub(crate) fn recycle(store: &mut MailStore, now: u64, buffer: u16, arrival: u64)
    requires mail { IsMail store.old }
    requires room { 0 < mark_room store.old }
    ensures after { mail_of store.new ≡ after_act now (mail_of store.old) (act.Recycle buffer arrival) }
    ensures mail { IsMail store.new }
    ensures buffers { buffer_count store.new ≡ buffer_count store.old }
    ensures room { mark_room store.old ≤ mark_room store.new + 1 }
    ensures stalls { store.new.stalls ≡ store.old.stalls }
    ensures rooms { LosesOneRoom store.old.buffers.items store.new.buffers.items }
    ensures places { LosesPlaces store.old store.new 1 }
{
    let Some(mut m) = take(store, now, buffer) else {
        return;
    };
    m.arrival = arrival;
    m.recycled = true;
    put(store, m);
}

// The mail with one copy more counted.
fn count(store: &mut MailStore, drawn: bool)
    requires mail { IsMail store.old }
    requires fit { CountsFit (mail_of store.old) }
    ensures after { mail_of store.new ≡ counted_mail (mail_of store.old) drawn }
    ensures mail { IsMail store.new }
    ensures buffers { buffer_count store.new ≡ buffer_count store.old }
    ensures marks { store.new.marks ≡ store.old.marks }
    ensures stalls { store.new.stalls ≡ store.old.stalls }
    ensures places { LosesPlaces store.old store.new 0 }
{
    store.sent += 1;
    store.copies += 1;
    if drawn {
        store.drawn += 1;
    }
}

// The mail with another last arrival at a receiver on a network, if there is this network.
fn network_last(store: &mut MailStore, network: u16, receiver: u32, arrival: u64)
    requires mail { IsMail store.old }
    requires place { HasLastRoom store.old.network_last.items network 1 }
    ensures after { let written = act.NetworkLast network receiver arrival in
        mail_of store.new ≡ after_act 0 (mail_of store.old) written }
    ensures mail { IsMail store.new }
    ensures buffers { buffer_count store.new ≡ buffer_count store.old }
    ensures marks { store.new.marks ≡ store.old.marks }
    ensures stalls { store.new.stalls ≡ store.old.stalls }
    ensures places { LosesPlaces store.old store.new 1 }
{
    lasts::put(&mut store.network_last, network, receiver, arrival);
}

// The mail with another last arrival in a buffer of the controller's own.
fn local_last(store: &mut MailStore, buffer: u16, arrival: u64)
    requires mail { IsMail store.old }
    requires place { 0 < store.old.local_last.room }
    ensures after { let written = act.LocalLast buffer arrival in
        mail_of store.new ≡ after_act 0 (mail_of store.old) written }
    ensures mail { IsMail store.new }
    ensures buffers { buffer_count store.new ≡ buffer_count store.old }
    ensures marks { store.new.marks ≡ store.old.marks }
    ensures stalls { store.new.stalls ≡ store.old.stalls }
    ensures places { LosesPlaces store.old store.new 1 }
{
    let _before = store.local_last.put(u64::from(buffer), arrival);
}

// The mail with a slot more in use in a buffer at a receiver.
fn lend(store: &mut MailStore, receiver: u32, buffer: u16)
    requires mail { IsMail store.old }
    requires fit { LentFit (mail_of store.old) }
    requires place { 0 < lent_room store.old }
    ensures after { mail_of store.new ≡ after_act 0 (mail_of store.old) (act.Lend receiver buffer) }
    ensures mail { IsMail store.new }
    ensures buffers { buffer_count store.new ≡ buffer_count store.old }
    ensures marks { store.new.marks ≡ store.old.marks }
    ensures stalls { store.new.stalls ≡ store.old.stalls }
    ensures places { LosesPlaces store.old store.new 1 }
{
    lent::put(&mut store.lent, receiver, buffer);
}

/// The mail with a credit, with a mark for its arrival.
pub(crate) fn credit(store: &mut MailStore, c: Credit)
    requires mail { IsMail store.old }
    requires place { 0 < credit_room store.old }
    requires room { 0 < mark_room store.old }
    ensures after { mail_of store.new ≡ mail_with_credit (mail_of store.old) c }
    ensures mail { IsMail store.new }
    ensures buffers { buffer_count store.new ≡ buffer_count store.old }
    ensures room { mark_room store.old ≤ mark_room store.new + 1 }
    ensures buffers_stay { store.new.buffers ≡ store.old.buffers }
    ensures stalls { store.new.stalls ≡ store.old.stalls }
    ensures places { LosesPlaces store.old store.new 1 }
{
    credits::put(&mut store.credits, c);
    marks::put(&mut store.marks, c.arrival);
}

/// The mail after an act.
pub(crate) fn make(store: &mut MailStore, cycle: u64, act: MailAct)
    requires mail { IsMail store.old }
    requires makeable { IsMakeable cycle (mail_of store.old) act }
    requires room { 0 < mark_room store.old }
    requires waits { is_stall act ≡ true → 0 < store.old.stalls.room }
    requires to_wake { is_wake act ≡ true → HasPlacesToWake store.old 0 }
    requires places { HasPlaces store.old 1 act }
    ensures after { mail_of store.new ≡ after_act cycle (mail_of store.old) act }
    ensures mail { IsMail store.new }
    ensures buffers { buffer_count store.new ≡ buffer_count store.old }
    ensures room { mark_room store.old ≤ mark_room store.new + 1 }
    ensures waits { store.old.stalls.room ≤ store.new.stalls.room + count_by is_stall (act ∷ []) }
    ensures places { LosesPlaces store.old store.new 1 }
{
    match act {
        MailAct::Pop(buffer) => pop(store, cycle, buffer),
        MailAct::Recycle(buffer, arrival) => recycle(store, cycle, buffer, arrival),
        MailAct::Mark(mark_cycle) => mark(store, mark_cycle),
        MailAct::Stall(buffer, line) => stalls::make_stall(store, cycle, buffer, line),
        MailAct::Wake(line) => wakings::make_wake(store, line),
        MailAct::WakeAll => wakings::make_wake_all(store),
        MailAct::Arrive(m) => put(store, m),
        MailAct::Count(drawn) => count(store, drawn),
        MailAct::NetworkLast(network, receiver, arrival) => {
            network_last(store, network, receiver, arrival)
        }
        MailAct::LocalLast(buffer, arrival) => local_last(store, buffer, arrival),
        MailAct::Lend(receiver, buffer) => lend(store, receiver, buffer),
        MailAct::Credit(c) => credit(store, c),
    }
}

// Makes room for the counts of slots in use of so many more buffers.
fn reserve_lent(store: &mut MailStore, more: usize) -> Result<(), NoMemory>
    requires mail { IsMail store.old }
    ensures same { mail_of store.new ≡ mail_of store.old }
    ensures mail { IsMail store.new }
    ensures buffers { buffer_count store.new ≡ buffer_count store.old }
    ensures marks { store.new.marks ≡ store.old.marks }
    ensures stalls { store.new.stalls ≡ store.old.stalls }
    ensures places { LosesPlaces store.old store.new 0 }
    ensures ok { OnOk result (more ≤ lent_room store.new) }
{
    store.lent.reserve(more)?;
    Ok(())
}

// Makes room for so many more credits.
fn reserve_credits(store: &mut MailStore, more: usize) -> Result<(), NoMemory>
    requires mail { IsMail store.old }
    ensures same { mail_of store.new ≡ mail_of store.old }
    ensures mail { IsMail store.new }
    ensures buffers { buffer_count store.new ≡ buffer_count store.old }
    ensures marks { store.new.marks ≡ store.old.marks }
    ensures stalls { store.new.stalls ≡ store.old.stalls }
    ensures places { LosesPlaces store.old store.new 0 }
    ensures ok { OnOk result (more ≤ credit_room store.new) }
{
    store.credits.reserve(more)?;
    Ok(())
}

// Makes room for so many more acts like this one, or answers that there is no memory for them, as of a buffer that isn't there:
// routes that fit name no such buffer.
fn reserve_place(store: &mut MailStore, act: &MailAct, more: usize) -> Result<(), NoMemory>
    requires mail { IsMail store.old }
    requires few { more < 2 ^ 63 }
    ensures same { mail_of store.new ≡ mail_of store.old }
    ensures mail { IsMail store.new }
    ensures buffers { buffer_count store.new ≡ buffer_count store.old }
    ensures marks { store.new.marks ≡ store.old.marks }
    ensures stalls { store.new.stalls ≡ store.old.stalls }
    ensures places { LosesPlaces store.old store.new 0 }
    ensures ok { OnOk result (HasPlaces store.new more act.now) }
{
    match act {
        MailAct::Arrive(m) => {
            let places = store.stalls.len() + more;
            queues::reserve_at(&mut store.buffers, m.buffer, places)
        }
        MailAct::NetworkLast(network, _, _) => {
            lasts::reserve(&mut store.network_last, *network, more)
        }
        MailAct::LocalLast(_, _) => store.local_last.reserve(more),
        MailAct::Lend(_, _) => reserve_lent(store, more),
        MailAct::Credit(_) => reserve_credits(store, more),
        _ => Ok(()),
    }
}

// Makes room for what the acts write beside marks, or answers that there is no memory for it.
fn reserve_places(store: &mut MailStore, changes: &MailChanges) -> Result<(), NoMemory>
    requires mail { IsMail store.old }
    ensures same { mail_of store.new ≡ mail_of store.old }
    ensures mail { IsMail store.new }
    ensures buffers { buffer_count store.new ≡ buffer_count store.old }
    ensures marks { store.new.marks ≡ store.old.marks }
    ensures stalls { store.new.stalls ≡ store.old.stalls }
    ensures places { LosesPlaces store.old store.new 0 }
    ensures ok { OnOk result (let log = (told_by changes.now).log in
        All (HasPlaces store.new (length log)) log) }
{
    if changes.log.placed_count() == 0 {
        return Ok(());
    }
    let more = changes.log.len();
    for i in 0..changes.log.len() {
        reserve_place(store, changes.log.at(i), more)?;
    }
    Ok(())
}

impl MailStore {
    // Makes a place in each buffer for all messages that wait, and for so many more. The mail stays as it is.
    fn reserve_to_wake(&mut self, more: usize) -> Result<(), NoMemory>
        requires mail { IsMail self.old }
        requires few { more < 2 ^ 63 }
        ensures same { mail_of self.new ≡ mail_of self.old }
        ensures mail { IsMail self.new }
        ensures buffers { buffer_count self.new ≡ buffer_count self.old }
        ensures marks { self.new.marks ≡ self.old.marks }
        ensures stalls { self.new.stalls ≡ self.old.stalls }
        ensures places { LosesPlaces self.old self.new 0 }
        ensures ok { OnOk result (HasPlacesToWake self.new more) }
    {
        let places = self.stalls.len() + more;
        queues::reserve(&mut self.buffers, places)
    }

    /// Makes room for the changes, and for one mark after them, or answers that there is no memory for them. The mail stays
    /// as it is, and no room is lost, also where there was no memory.
    pub fn reserve(&mut self, changes: &MailChanges) -> Result<(), NoMemory>
        requires mail { IsMail self.old }
        ensures same { mail_of self.new ≡ mail_of self.old }
        ensures mail { IsMail self.new }
        ensures buffers { buffer_count self.new ≡ buffer_count self.old }
        ensures ok { OnOk result (HasRoom self.new (told_by changes.now)) }
        ensures kept { KeepsRoom self.old self.new }
    {
        self.marks.reserve(changes.log.len() + 1)?;
        self.stalls.reserve(changes.log.stall_count())?;
        if changes.log.wake_count() > 0 {
            self.reserve_to_wake(changes.log.len())?;
        }
        reserve_places(self, changes)
    }

    /// Makes the changes of a scan of this mail, where there is room for them, and leaves room for one mark. It takes no memory.
    /// The lists of what the scan did to messages stay in the changes, the copies for other controllers among them.
    pub fn apply(&mut self, changes: &mut MailChanges)
        requires mail { IsMail self.old }
        requires changes { CopiesFit (mail_of self.old) (told_by changes.old) }
        requires room { HasRoom self.old (told_by changes.old) }
        ensures after { mail_of self.new ≡ changed_mail (mail_of self.old) (told_by changes.old) }
        ensures mail { IsMail self.new }
        ensures buffers { buffer_count self.new ≡ buffer_count self.old }
        ensures room { 0 < mark_room self.new }
        ensures acts { (told_by changes.new).acts ≡ (told_by changes.old).acts }
    {
        let mut acts = changes.log.take();
        while let Some(act) = acts.pop_front() {
            make(self, changes.cycle, act);
        }
        changes.log.give_back(acts);
    }
}
