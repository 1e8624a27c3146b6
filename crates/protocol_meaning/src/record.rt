use ruby_base::Seq;
use ruby_options::Options;
use ruby_topology::Topology;
use run_journal::{Account, Event, Final, Journal, Tally, Verdict};
use slicc_plan::Plan;

/// A whole run: what was run, what happened, and how it ended.
pub struct RunRecord {
    pub plan: Plan,
    pub topology: Topology,
    pub options: Options,
    pub history: Seq<Event>,
    pub journal: Journal,
    /// The final states, by ascending controller and address.
    pub finals: Seq<Final>,
    pub account: Account,
    pub verdict: Verdict,
    /// One for each worker, in increasing number.
    pub tallies: Seq<Tally>,
}

// It is written out, so that a crate above proves a call where one goes, and not how each of its parts goes.
impl Drop for RunRecord {
    fn drop(self) {
        let RunRecord {
            plan: _,
            topology: _,
            options: _,
            history: _,
            journal: _,
            finals: _,
            account: _,
            verdict: _,
            tallies: _,
        } = self;
    }
}
