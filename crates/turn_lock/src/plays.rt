//! What each step tells its caller, how the dealer deals passes, and how two passes meet.
ghost use Rattle.turn_lock.specs.Tickets.{spent};
ghost use Rattle.turn_lock.specs.Plays.{drew, looked, handed, compared, one_fewer, one_more, joined};

use crate::Kept;
use crate::view::View;
use atomic_table::{Join, Play, Split};

/// A ticket is drawn.
pub struct Draw;

impl<V: Kept> Play<Option<V>, View<V::Plan>> for Draw {
    ghost then = { drew };
}

/// The ticket that is served is looked at.
pub struct Look;

impl<V: Kept> Play<Option<V>, View<V::Plan>> for Look {
    ghost then = { looked V.plan V.history };
}

/// The next ticket is served.
pub struct HandOn;

impl<V: Kept> Play<Option<V>, View<V::Plan>> for HandOn {
    ghost then = { handed V.history };
}

/// What was seen is compared with what another had seen.
pub struct Compare;

impl<V: Kept> Play<Option<V>, View<V::Plan>> for Compare {
    ghost then = { compared };
}

/// One more pass is made.
pub struct Deal;

impl<P> Split<View<P>> for Deal {
    ghost left = { one_fewer };

    ghost right = { one_more };
}

/// A pass takes in another.
pub struct Meet;

impl<P> Join<View<P>> for Meet {
    ghost both = { joined };

    ghost spent = { spent };
}
