//! What a run leaves behind: the events of its history, the entries of its journal, how it ended, and what is read
//! off them. All of it is plain data. Two readings of a journal stand here: the final states, and the entries of one
//! controller; and one of a history: how many events of each kind a worker has in it.
#![tactic(auto)]

mod column;
mod columns;
mod entry;
mod event;
mod journal;
mod last_states;
mod laws;
mod lent;
mod lists;
mod parts;
mod summary;
mod tallying;
mod verdict;
mod writer;

pub use entry::{End, Entry, FireNote, StopAt};
pub use event::Event;
pub use journal::Journal;
pub use last_states::finals;
pub use laws::{finals_are_one_list, finals_follow_from_parts};
pub use lent::{EndRef, EntryRef, FireLists};
pub use parts::part;
pub use ruby_base::{NoMemory, Seq, Text};
pub use ruby_value::{Fault, Finding, MsgNo, Sent};
pub use summary::{Account, Final, Tally};
pub use tallying::{EventKind, tally_of};
pub use verdict::Verdict;
pub use writer::JournalWriter;
