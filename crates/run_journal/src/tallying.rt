// How many events of each kind a worker has in a history.
ghost use Rattle.std.specs.Prelude.{◌≡◌, count_by};
ghost use Rattle.run_journal.specs.Tally.{tally, is_by};

use crate::{Event, Tally};

/// What a tally counts: the events of one kind.
#[derive(Clone, Copy)]
pub enum EventKind {
    /// `Event::Take`.
    Takes,
    /// `Event::Fire`.
    Fires,
    /// `Event::Done`.
    Dones,
    /// `Event::Release`.
    Releases,
    /// `Event::Turn`.
    Turns,
}

fn is_by(kind: EventKind, worker: u32, e: &Event) -> bool
    ensures { result ≡ is_by kind worker e.now }
{
    match (kind, e) {
        (EventKind::Takes, Event::Take { worker: w, .. })
        | (EventKind::Fires, Event::Fire { worker: w, .. })
        | (EventKind::Dones, Event::Done { worker: w, .. })
        | (EventKind::Releases, Event::Release { worker: w, .. })
        | (EventKind::Turns, Event::Turn { worker: w }) => *w == worker,
        _ => false,
    }
}

fn count(history: &[Event], kind: EventKind, worker: u32) -> u64
    ensures { result ≡ count_by (is_by kind worker) history.now }
{
    history.iter().filter(|e| is_by(kind, worker, e)).count() as u64
}

/// How many events of each kind the worker has in the history.
pub fn tally_of(history: &[Event], worker: u32) -> Tally
    ensures { result ≡ tally worker history.now }
{
    Tally {
        worker,
        takes: count(history, EventKind::Takes, worker),
        fires: count(history, EventKind::Fires, worker),
        dones: count(history, EventKind::Dones, worker),
        releases: count(history, EventKind::Releases, worker),
        turns: count(history, EventKind::Turns, worker),
    }
}
