//! What a protocol means, and what a run of it begins with, by its trees and a topology: the instance of which runs and their laws are
//! said, and that a topology which is read for an accepted protocol always fits it. Laws of all scans, for each machine and each local:
//! what acts keep, scans keep, and what comes later changes nothing; and of the values of a run's controllers: they are members of what
//! the protocol declares, and numbers of the run's controllers. And what serves protocols, which is code that does a scan as these
//! definitions have it, and the record of a whole run, as data.
#![tactic(auto)]

mod every_scan;
mod framed;
mod laws;
mod machine_setups;
mod protocol;
mod record;

pub use every_scan::{scans_keep_what_holds, what_comes_later_changes_no_scan};
pub use framed::meanings_are_framed;
pub use laws::{
    calls_find_the_machines, fired_rounds_stay, meanings_are_lawful, needs_are_those_of_tries,
    plain_topologies_fit, rounds_are_scans, settings_are_lawful, topologies_fit,
    values_stay_members,
};
pub use machine_setups::setups;
pub use protocol::Protocol;
pub use record::RunRecord;
pub use ruby_base::{NoMemory, Seq};
