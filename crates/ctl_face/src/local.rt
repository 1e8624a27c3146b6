ghost use Rattle.std.specs.Prelude.{◌≡◌, Ok, Some, IfSome, is_some};
ghost use Rattle.std.specs.Option.{option_copied};
ghost use Rattle.ctl_face.specs.Again.{again};
ghost use Rattle.ctl_face.specs.Allocate.{allocate};
ghost use Rattle.ctl_face.specs.Avail.{avail, probe};
ghost use Rattle.ctl_face.specs.Callback.{read_back, write_back, block_after_write};
ghost use Rattle.ctl_face.specs.Deallocate.{deallocate};
ghost use Rattle.ctl_face.specs.Does.{Does, DoesWith, Reads, answered};
ghost use Rattle.ctl_face.specs.Enqueue.{enqueue};
ghost use Rattle.ctl_face.specs.Fits.{IsLawful};
ghost use Rattle.ruby_value.specs.Prelude.{IsLine};
ghost use Rattle.ctl_face.specs.Free.{free};
ghost use Rattle.ctl_face.specs.Get.{field_behind, get};
ghost use Rattle.ctl_face.specs.LocalView.{LocalView};
ghost use Rattle.ctl_face.specs.Lookup.{lookup, reference_to};
ghost use Rattle.ctl_face.specs.Places.{IsPlace, message_at};
ghost use Rattle.ctl_face.specs.Pop.{pop};
ghost use Rattle.ctl_face.specs.Ready.{front_now, ready, required_front};
ghost use Rattle.ctl_face.specs.Recycle.{recycle};
ghost use Rattle.ctl_face.specs.Served.{is_cache, is_tbe_table, looks_up, deallocates, HasField, HasStates, Receives, Sends, Serves, TakesField, TakesMessage};
ghost use Rattle.ctl_face.specs.Set.{set};
ghost use Rattle.ctl_face.specs.Slots.{slots};
ghost use Rattle.ctl_face.specs.Stall.{stall};
ghost use Rattle.ctl_face.specs.State.{state, set_state};
ghost use Rattle.ctl_face.specs.Touch.{touch};
ghost use Rattle.ctl_face.specs.Wake.{wake, wake_all};

use crate::{MessageAt, Trouble};
use ruby_value::{Block, Fields, MachineSetup, Message, Ref, Value};

/// A controller in whose scan acts are done: the tables, buffers, sends and callbacks that the actions of a protocol
/// name, as in gem5's SLICC. Tables and buffers go by their numbers within the machine, lines are line numbers, which are
/// byte addresses divided by 64, and cycles and latencies are counted in cycles.
///
/// A contract sees a local as its `LocalView`: what no act changes, the controller, and what the acts have done to messages.
/// A call that changes it `Does` what the definition of its name has, and a call that only reads answers what its definition
/// has; `send` is the definition `enqueue`. A fault comes exactly where that definition has it, unless there was no memory.
/// After a fault or want of memory the local is as it was. A call that can't answer want of memory takes none. What always
/// holds is the law `lawful`, which says that each local is lawful; a run's locals go by routes that fit the whole run besides. Which words the faults are is this project's own.
pub trait Local {
    ghost view: { Self → LocalView };

    /// The cycle in which the acts are done, which is at most 10^12.
    fn now(&self) -> u64
        ensures { result ≡ (view self.now).now };

    /// The controller's actor number.
    fn me(&self) -> u32
        ensures { result ≡ (view self.now).actor.me };

    /// What the machine is to the controller, lent: what the other calls serve is seen from it.
    fn machine(&self) -> &MachineSetup
        ensures { result.now ≡ (view self.now).machine };

    /// The value of a field of the line that a reference names. The fault `Reference` comes exactly where the line isn't
    /// there. A machine's parameters are the fields of line 0 of a table of their own.
    fn get(&self, r: &Ref, field: u16) -> Result<Value, Trouble>
        requires served { HasField (view self.now) r.now.table field }
        requires line { IsLine r.now.line }
        ensures { Reads (get (view self.now) r.now field) result };

    /// The same value, lent, or `None` exactly where the line isn't there.
    fn field(&self, r: &Ref, field: u16) -> Option<&Value>
        requires served { HasField (view self.now) r.now.table field }
        requires line { IsLine r.now.line }
        ensures { option_copied result ≡ field_behind (view self.now) r.now field };

    /// Writes a field of the line that a reference names. The fault `Reference` comes exactly where the line isn't there. It
    /// doesn't count as a use of the line.
    fn set(&mut self, r: &Ref, field: u16, v: Value) -> Result<(), Trouble>
        requires served { TakesField (view self.old) r.now.table field v }
        requires line { IsLine r.now.line }
        ensures { Does (set (view self.old) r.now field v) result (view self.old) (view self.new) };

    /// The reference to a line of a cache, a directory or a TBE table, or `None` exactly where the line isn't there.
    fn lookup(&self, table: u16, line: u64) -> Option<Ref>
        requires served { Serves looks_up (view self.now) table }
        requires line { IsLine line }
        ensures { result ≡ lookup (view self.now) table line };

    /// Whether the line is in the cache or its set has a free way, as `cacheAvail`.
    fn avail(&self, table: u16, line: u64) -> bool
        requires served { Serves is_cache (view self.now) table }
        requires line { IsLine line }
        ensures { result ≡ avail (view self.now) table line };

    /// The least recently used line of the set of a line, as `cacheProbe`. The fault `Probe` comes exactly where `avail` is
    /// true.
    fn probe(&self, table: u16, line: u64) -> Result<u64, Trouble>
        requires served { Serves is_cache (view self.now) table }
        requires line { IsLine line }
        ensures { result ≡ answered (probe (view self.now) table line) };

    /// Puts a line with its default fields into a cache, as the most recently used one of its set, or into a TBE table, and
    /// answers the reference to it. The fault `Present` comes where the line is there, and else `Full` where there is no place
    /// for it. A directory has each line, and doesn't change.
    fn allocate(&mut self, table: u16, line: u64) -> Result<Ref, Trouble>
        requires served { Serves looks_up (view self.old) table }
        requires line { IsLine line }
        ensures { DoesWith (allocate (view self.old) table line) (reference_to table line)
            result (view self.old) (view self.new) };

    /// Takes a line out of a cache or a TBE table. The fault `Absent` comes exactly where it isn't there.
    fn deallocate(&mut self, table: u16, line: u64) -> Result<(), Trouble>
        requires served { Serves deallocates (view self.old) table }
        requires line { IsLine line }
        ensures { Does (deallocate (view self.old) table line) result (view self.old)
            (view self.new) };

    /// Makes a line the most recently used one of its set, as `setMRU`. The fault `Absent` comes exactly where it isn't there.
    fn touch(&mut self, table: u16, line: u64) -> Result<(), Trouble>
        requires served { Serves is_cache (view self.old) table }
        requires line { IsLine line }
        ensures { Does (touch (view self.old) table line) result (view self.old) (view self.new) };

    /// How many more lines a TBE table may hold.
    fn free(&self, table: u16) -> u64
        requires served { Serves is_tbe_table (view self.now) table }
        ensures { result ≡ free (view self.now) table };

    /// Whether a buffer has a message that has arrived and isn't stalled.
    fn ready(&self, buffer: u16) -> bool
        requires served { Receives (view self.now) buffer }
        ensures { result ≡ ready (view self.now) buffer };

    /// The front of a buffer: of its messages that have arrived and aren't stalled, the least by arrival, then number.
    /// The fault `Front` comes exactly where there is none.
    fn front(&self, buffer: u16) -> Result<Message, Trouble>
        requires served { Receives (view self.now) buffer }
        ensures { Reads (required_front (view self.now) buffer) result };

    /// The front of a buffer, lent, or `None` exactly where there is none.
    fn peek(&self, buffer: u16) -> Option<&Message>
        requires served { Receives (view self.now) buffer }
        ensures { option_copied result ≡ front_now (view self.now) buffer };

    /// Where the front of a buffer is, or `None` exactly where there is none. The place stays good until the scan ends, whatever
    /// becomes of the message.
    fn front_at(&self, buffer: u16) -> Option<MessageAt>
        requires served { Receives (view self.now) buffer }
        ensures there { is_some result ≡ ready (view self.now) buffer }
        ensures place { IfSome result (IsPlace (view self.now)) }
        ensures front { IfSome result (λ at. message_at (view self.now) at ≡ front_now (view self.now) buffer) };

    /// The message at a place, lent as the scan began with it. Which places are good, only the view's start says.
    fn message(&self, at: MessageAt) -> &Message
        requires place { IsPlace (view self.now) at }
        ensures { message_at (view self.now) at ≡ Some result.now };

    /// Consumes the front of a buffer, for which a credit goes to its sender where it had a slot. The fault `Front` comes exactly
    /// where there is none.
    fn pop(&mut self, buffer: u16) -> Result<(), Trouble>
        requires served { Receives (view self.old) buffer }
        ensures { Does (pop (view self.old) buffer) result (view self.old) (view self.new) };

    /// Stalls the front of a buffer under a line. The fault `Front` comes exactly where there is none.
    fn stall(&mut self, buffer: u16, line: u64) -> Result<(), Trouble>
        requires served { Receives (view self.old) buffer }
        requires line { IsLine line }
        ensures { Does (stall (view self.old) buffer line) result (view self.old) (view self.new) };

    /// Puts the messages that wait under a line back, with their old arrivals and numbers. No fault comes.
    fn wake(&mut self, line: u64) -> Result<(), Trouble>
        requires line { IsLine line }
        ensures { Does (Ok (wake (view self.old) line)) result (view self.old) (view self.new) };

    /// Puts all messages back that wait, with their old arrivals and numbers. No fault comes.
    fn wake_all(&mut self) -> Result<(), Trouble>
        ensures { Does (Ok (wake_all (view self.old))) result (view self.old) (view self.new) };

    /// Gives the front of a buffer a later arrival, which is this cycle and a latency, for which the controller will wake; it
    /// counts as recycled from then on. The fault `Latency` comes where that is outside 1 to 1,000,000, and else `Front` where
    /// there is no front.
    fn recycle(&mut self, buffer: u16, latency: i64) -> Result<(), Trouble>
        requires served { Receives (view self.old) buffer }
        ensures { Does (recycle (view self.old) buffer latency) result (view self.old)
            (view self.new) };

    /// Sends a message: one copy into a buffer of the controller's own, or on a buffer to a network one copy to each receiver
    /// that the message names. The fault `Latency` comes where that is outside 1 to 1,000,000; else `Route` where a receiver
    /// has no buffer for it; else `Copies` where the controller would send more than 4,096 copies in this cycle.
    fn send(&mut self, buffer: u16, latency: i64, fields: Fields) -> Result<(), Trouble>
        requires served { Sends (view self.old) buffer }
        requires fields { TakesMessage (view self.old) buffer fields }
        ensures { Does (enqueue (view self.old) buffer latency fields)
            result (view self.old) (view self.new) };

    /// How many slots are left on a buffer that the machine sends on: the least that is free at any receiver whose buffer there
    /// has a size, or `None` exactly where none has one.
    fn slots(&self, buffer: u16) -> Option<u64>
        requires served { Sends (view self.now) buffer }
        ensures { result ≡ slots (view self.now) buffer };

    /// Finishes a load or a fetch of a line with the block that it reads. The fault `Callback` comes exactly where the line
    /// has no such request.
    fn read_back(&mut self, line: u64, block: &Block) -> Result<(), Trouble>
        requires line { IsLine line }
        ensures { Does (read_back (view self.old) line block.now) result (view self.old)
            (view self.new) };

    /// Finishes a store to a line, and answers the block in which its byte is written. The fault `Callback` comes exactly
    /// where the line has no such request.
    fn write_back(&mut self, line: u64, block: Block) -> Result<Block, Trouble>
        requires line { IsLine line }
        ensures { DoesWith (write_back (view self.old) line block)
            (block_after_write (view self.old) line block)
            result (view self.old) (view self.new) };

    /// The state of a line in the built-in map, or the default state where it was never set.
    fn state(&self, line: u64) -> u16
        requires served { HasStates (view self.now) }
        requires line { IsLine line }
        ensures { result ≡ state (view self.now) line };

    /// Sets the state of a line in the built-in map. No fault comes.
    fn set_state(&mut self, line: u64, state: u16) -> Result<(), Trouble>
        requires served { HasStates (view self.old) }
        requires line { IsLine line }
        ensures { Does (Ok (set_state (view self.old) line state)) result (view self.old)
            (view self.new) };

    /// Sees to it that the controller wakes in the next cycle. No fault comes.
    fn again(&mut self) -> Result<(), Trouble>
        ensures { Does (Ok (again (view self.old))) result (view self.old) (view self.new) };

    ghost lawful: { (l : Self) → IsLawful (view l) };
}
