ghost use Rattle.ctl_face.specs.Prelude.{IsLawful, IsLawful-prop};
ghost use Rattle.ctl_store.specs.Scanned.{local_of};

use crate::outcome::Outcome;
use crate::scan::Scan;
use crate::scratch::Scratch;
use crate::store::Store;
use ctl_face::Routes;
use run_journal::FireNote;

/// A draft of one scan of the controller that a store keeps: it reads through to the store, and keeps beside it what the scan
/// changes. A draft that is dropped has changed nothing; one that is sealed gives what it has changed, to be applied to the store.
pub struct Draft<'a> {
    pub(crate) scan: Scan<'a>,
    ghost lawful: { IsLawful (local_of scan) } by { IsLawful-prop (local_of scan) },
}

impl Drop for Draft<'_> {
    fn drop(self) {
        let Draft { scan: _ } = self;
    }
}

impl<'a> Draft<'a> {
    ghost use Rattle.std.specs.Prelude.{◌≡◌, ◌≤◌};
    ghost use Rattle.ctl_face.specs.Prelude.{Fits, last_cycle, HasRoutes, scan_view};
    ghost use Rattle.ctl_store.specs.Drafted.{view_of};
    ghost use Rattle.ctl_store.specs.Kept.{ctl_of, machine_of, me_of};
    ghost use Rattle.ctl_store.specs.Sealed.{IsOutcomeOf};

    /// A draft of a scan of the store's controller in a cycle, which has changed nothing yet: the controller fits its machine in
    /// this cycle, and the routes are ones that it may go by. It keeps what it changes in lists that an earlier scan may have left,
    /// whatever is in them, and takes no memory.
    pub fn on(
        scratch: Scratch,
        store: &'a Store,
        routes: &'a Routes,
        seed: u64,
        now: u64,
    ) -> Draft<'a>
        requires routes { HasRoutes (machine_of store.now) (me_of store.now) routes.now }
        requires cycle { now ≤ last_cycle }
        requires fits { Fits (machine_of store.now) (me_of store.now) (ctl_of store.now) now }
        ensures { view_of result ≡ scan_view (machine_of store.now)
            (record { me = me_of store.now; seed = seed; routes = routes.now }) now (ctl_of store.now) }
    {
        let scan = Scan::begin(scratch, &store.parts, routes, seed, now);
        scan.law();
        Draft { scan }
    }

    /// Ends the draft of a scan that fired no transition, which has changed nothing, and gives its lists for another one.
    pub fn abandon(self) -> Scratch {
        let Draft { scan } = self;
        scan.into_scratch()
    }

    /// What holds of each draft. It does nothing.
    pub fn law(&self)
        ensures { IsLawful (view_of self.now) }
    {
        self.scan.law();
    }

    /// Whether the scan was to wait: it called `again`.
    pub fn stalled(&self) -> bool
        ensures { result ≡ (view_of self.now).acts.again }
    {
        self.scan.stalled()
    }

    /// Ends the draft of a scan that fired a transition, and gives what it has changed. It takes no memory.
    pub fn seal(self, note: FireNote) -> Outcome
        ensures outcome { IsOutcomeOf (view_of self.entry) note result }
        ensures lawful { IsLawful (view_of self.entry) }
    {
        let Draft { scan } = self;
        scan.law();
        scan.seal(note)
    }
}
