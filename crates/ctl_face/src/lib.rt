//! A controller as plain data, the calls by which its acts are done, and tests of what these calls require. The layers that
//! are to change controllers, to give a protocol its meaning and to run its code are to stand on it.
#![tactic(auto)]

mod lawful;
mod laws;
mod local;
mod mail_laws;
mod message_at;
mod parcel;
mod routes;
mod serving;
mod trouble;

pub use lawful::{has_routes, is_machine};
pub use laws::{
    acts_between_scans_keep_what_holds, copies_fit_their_receivers, copies_have_numbers,
    message_calls_keep_what_holds, opening_controllers_fit, places_stay_good,
    reads_have_their_kinds, routes_fit_each_controller, scans_begin_lawful,
    table_calls_keep_what_holds,
};
pub use local::Local;
pub use mail_laws::{
    copies_arrive_later, edits_change_one_key, front_comes_first, marks_lie_ahead,
    sends_add_their_copies, slots_are_counted,
};
pub use message_at::MessageAt;
pub use parcel::{Credit, Lent, Parcel};
pub use routes::Routes;
pub use ruby_value::{
    Block, BufferPlace, BufferSetup, Fault, Fields, MachineSetup, Message, NoMemory, Ref, Seq,
    Sizes, TableSetup, TableSize, Text, Value,
};
pub use serving::{
    deallocates, has_field, is_cache, is_tbe_table, looks_up, receives, sends, takes_field,
    takes_message,
};
pub use trouble::Trouble;
