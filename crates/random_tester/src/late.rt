// Which request has waited too long.
ghost use Rattle.std.specs.Prelude.{◌≡◌, ◌<◌, Some, length, slice_get};
ghost use Rattle.std.specs.List.{All};
ghost use Rattle.ruby_value.specs.Prelude.{first_of};
ghost use Rattle.sequencer.specs.Prelude.{FitsSeat, Seat};
ghost use Rattle.random_tester.specs.Prelude.{late, late_at};

use sequencer::{Finding, Seats};

/// The first request of a seat, by its line, that has waited for so many cycles.
fn late_at<S: Seats>(deadlock: u64, now: u64, seats: &S, k: u32) -> Option<Finding>
    requires seat { k < length (S.view seats.now).kept.seats }
    requires fit { All FitsSeat (S.view seats.now).kept.seats }
    ensures { (s : Seat) → slice_get (S.view seats.now).kept.seats k ≡ Some s
        → result ≡ first_of (late_at deadlock now s) }
{
    let controller = seats.controller(k);
    let mut line = None;
    while let Some(a) = seats.next_after(k, line) {
        if now.saturating_sub(a.issued) >= deadlock {
            return Some(Finding::Deadlock {
                controller,
                line: a.line,
                issued: a.issued,
            });
        }
        line = Some(a.line);
    }
    None
}

/// The first request, by its seat and then by its line, that has waited for so many cycles.
pub(crate) fn first_late<S: Seats>(deadlock: u64, now: u64, seats: &S) -> Option<Finding>
    requires { All FitsSeat (S.view seats.now).kept.seats }
    ensures { result ≡ first_of (late deadlock now (S.view seats.now).kept.seats) }
{
    for k in 0..seats.count() {
        match late_at(deadlock, now, seats, k) {
            Some(found) => return Some(found),
            None => {}
        }
    }
    None
}
