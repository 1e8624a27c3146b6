// Laws of a controller's mail, and that an edit of its lists and maps changes one key. These functions do nothing: their
// contracts are the laws.
ghost use Rattle.std.specs.Prelude.{◌≡◌, ◌≢◌, ◌<◌, ◌≤◌, ◌⊎◌, ◌↔◌, ◌==◌, ◌+◌, ◌&&◌, nat_le, ℕ, ℤ, List, Ok, Some, IsTrue, Contains, nat_abs, slice_get, if◌then◌else◌};
ghost use Rattle.std.specs.List.{All};
ghost use Rattle.ruby_value.specs.declared.message.MsgNo.{MsgNo};
ghost use Rattle.ruby_value.specs.declared.setup.BufferSetup.{BufferSetup};
ghost use Rattle.ruby_value.specs.declared.setup.MachineSetup.{MachineSetup};
ghost use Rattle.ruby_value.specs.declared.value.Value.{Value};
ghost use Rattle.ruby_value.specs.Prelude.{has_mark, marks_from, with_mark};
ghost use Rattle.ruby_value.specs.declared.message.Delivery.{Delivery};
ghost use Rattle.ruby_value.specs.declared.message.Message.{Message};
ghost use Rattle.ctl_face.specs.declared.parcel.Credit.{Credit};
ghost use Rattle.ctl_face.specs.declared.parcel.Lent.{Lent};
ghost use Rattle.ctl_face.specs.Prelude.{again, arrived_credits, credits_from, free_slots, is_credit_of, lent_at, lent_from, with_credit, with_lent, InboxMessage, Mail, enqueue, IsFront, front, changed_message, without_message, Actor, LocalView, MarksAhead, recycle, Sending, send, SendAdds, SendsKeepOrder, set_state, state};
ghost use Rattle.ctl_face.specs.Inbox.{with_message};

/// Each copy that a send makes arrives after the cycle of the send.
pub fn copies_arrive_later()
    ensures { (machine : MachineSetup) (actor : Actor) (mail : Mail) (buffer : ℕ) (latency : ℤ)
        (fields : List Value) (now : ℕ) (s : Sending)
        → send machine actor mail buffer latency fields now ≡ Ok s
        → All (λ (c : Delivery Message). now < c.message.arrival) s.copies }
{}

/// A send that ends without a fault makes one copy for each receiver that its message names, with the sender's next numbers, and
/// adds them to the sender's counts, to the last arrivals that later sends go by, to the slots in use, and to its own inbox where it is
/// a receiver. Where a network keeps order, what is sent first arrives first, as long as nothing between the two sends lowers a last
/// arrival there.
pub fn sends_add_their_copies()
    ensures added { (machine : MachineSetup) (actor : Actor) (mail : Mail) (buffer : ℕ) (latency : ℤ)
        (fields : List Value) (now : ℕ) (on : BufferSetup) (s : Sending)
        → slice_get machine.buffers buffer ≡ Some on
        → send machine actor mail buffer latency fields now ≡ Ok s
        → SendAdds on.place on.ordered actor mail buffer (nat_abs latency) fields now s }
    ensures order { (network : ℕ) (machine : MachineSetup) (actor : Actor) (mail : Mail)
        → SendsKeepOrder network machine actor mail }
{}

/// A slot more in use is counted at its buffer and receiver alone, and so is a credit that comes. In which order credits come doesn't
/// matter. What a cycle's beginning settles leaves as many slots free in each cycle from then on, where no more credits have arrived
/// than slots were in use.
pub fn slots_are_counted()
    ensures lent { (lent : List Lent) (receiver buffer other_receiver other_buffer : ℕ)
        → lent_at (with_lent lent receiver buffer) other_receiver other_buffer
        ≡ lent_at lent other_receiver other_buffer
        + (if receiver == other_receiver && buffer == other_buffer then 1 else 0) }
    ensures credit { (credits : List Credit) (c : Credit) (receiver buffer now : ℕ)
        → arrived_credits (with_credit credits c) receiver buffer now
        ≡ arrived_credits credits receiver buffer now
        + (if is_credit_of receiver buffer c && nat_le c.arrival now then 1 else 0) }
    ensures order { (credits : List Credit) (a b : Credit)
        → with_credit (with_credit credits a) b ≡ with_credit (with_credit credits b) a }
    ensures settled { (lent : List Lent) (credits : List Credit)
        (size receiver buffer now later : ℕ)
        → now ≤ later
        → arrived_credits credits receiver buffer now ≤ lent_at lent receiver buffer
        → free_slots (lent_from now credits lent) (credits_from now credits) size receiver buffer
        later
        ≡ free_slots lent credits size receiver buffer later }
{}

/// Each cycle at which a controller must wake after one of these acts is one at which it had to before, or comes after this
/// cycle.
pub fn marks_lie_ahead()
    ensures again { (v : LocalView) → MarksAhead v.ctl.mail.marks v.now (again v).ctl.mail.marks }
    ensures recycle { (v : LocalView) (buffer : ℕ) (latency : ℤ) (after : LocalView)
        → recycle v buffer latency ≡ Ok after
        → MarksAhead v.ctl.mail.marks v.now after.ctl.mail.marks }
    ensures enqueue { (v : LocalView) (buffer : ℕ) (latency : ℤ) (fields : List Value)
        (after : LocalView)
        → enqueue v buffer latency fields ≡ Ok after
        → MarksAhead v.ctl.mail.marks v.now after.ctl.mail.marks }
{}

/// The front of a buffer is a ready message of it before which no other ready one comes; there is none where none is ready.
pub fn front_comes_first()
    ensures { (mail : Mail) (buffer now : ℕ) → IsFront mail.inbox buffer now
        (front mail buffer now) }
{}

/// An edit of a set of cycles, of an inbox or of the states of lines changes what it names, and nothing else: a mark is there or
/// isn't, a message comes in, goes out or becomes another, and a line has another state.
pub fn edits_change_one_key()
    ensures mark { (marks : List ℕ) (cycle other : ℕ) → IsTrue
        (has_mark (with_mark marks cycle) other)
        ↔ ((cycle ≡ other) ⊎ IsTrue (has_mark marks other)) }
    ensures marks_from { (marks : List ℕ) (cycle other : ℕ) → IsTrue
        (has_mark (marks_from cycle marks) other)
        ↔ ((cycle ≤ other) × IsTrue (has_mark marks other)) }
    ensures put { (inbox : List InboxMessage) (m other : InboxMessage) → Contains
        (with_message inbox m) other
        ↔ ((m ≡ other) ⊎ (Contains inbox other × (other.message.number ≢ m.message.number))) }
    ensures taken { (inbox : List InboxMessage) (number : MsgNo) (other : InboxMessage)
        → Contains (without_message inbox number) other
        ↔ (Contains inbox other × (other.message.number ≢ number)) }
    ensures changed { (inbox : List InboxMessage) (number : MsgNo)
        (change : InboxMessage → InboxMessage)
        (other : InboxMessage)
        → Contains (changed_message inbox number change) other
        ↔ ((Contains inbox other × (other.message.number ≢ number))
        ⊎ ((o : InboxMessage) × Contains inbox o × (o.message.number ≡ number) ×
        (change o ≡ other))) }
    ensures state { (v : LocalView) (line new other : ℕ)
        → state (set_state v line new) other ≡ (if other == line then new else state v other) }
{}
