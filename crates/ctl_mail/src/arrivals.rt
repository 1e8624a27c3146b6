// When the copies of a send arrive, and the words that are drawn for them.
ghost use Rattle.std.specs.Prelude.{◌≡◌, ◌≤◌, ◌<◌, ◌+◌, ◌^◌, slice_get};
ghost use Rattle.std.specs.Option.{option_copied};
ghost use Rattle.ctl_face.specs.Prelude.{last_at, lasts_on, AreWithinLimits, arrival_after};
ghost use Rattle.ctl_mail.specs.Prelude.{AreNext, actor_of, drawn_after, jitter_at, mail_after};

use crate::kept_words::{KeptWords, words_at};
use crate::{MailChanges, MailStore};
use ctl_face::Routes;
use pcg_words::Words;
use ruby_value::LineMap;

// The last arrivals on a network, if there is this network.
fn lasts_of(networks: &[LineMap<u64>], network: u16) -> Option<&LineMap<u64>>
    ensures { option_copied result ≡ slice_get networks.now network }
{
    networks.get(usize::from(network))
}

// When the last copy on a network to a receiver arrives, as this scan has left it, or 0 where there is none.
fn network_last(store: &MailStore, changes: &MailChanges, network: u16, receiver: u32) -> u64
    ensures { let lasts = lasts_on (mail_after store.now changes.now).network_last network in
        result ≡ last_at lasts receiver }
{
    let Some(lasts) = lasts_of(&store.network_last, network) else {
        return 0;
    };
    if let Some(arrival) = changes.log.network_last(network, receiver) {
        return arrival;
    }
    match lasts.get(u64::from(receiver)) {
        Some(arrival) => *arrival,
        None => 0,
    }
}

// When the last copy in a buffer of the controller's own arrives, as this scan has left it, or 0 where there is none.
fn local_last(store: &MailStore, changes: &MailChanges, buffer: u16) -> u64
    ensures { result ≡ last_at (mail_after store.now changes.now).local_last buffer }
{
    if let Some(arrival) = changes.log.local_last(buffer) {
        return arrival;
    }
    match store.local_last.get(u64::from(buffer)) {
        Some(arrival) => *arrival,
        None => 0,
    }
}

/// When a copy on a network arrives that is due at a cycle: where order is kept, not before the last one.
pub(crate) fn network_arrival(
    store: &MailStore,
    changes: &MailChanges,
    ordered: bool,
    network: u16,
    receiver: u32,
    due: u64,
) -> u64
    ensures { let lasts = lasts_on (mail_after store.now changes.now).network_last network in
        result ≡ arrival_after ordered due (last_at lasts receiver) }
{
    if !ordered {
        return due;
    }
    due.max(network_last(store, changes, network, receiver))
}

/// When a copy in a buffer of the controller's own arrives that is due at a cycle: where order is kept, not before the last one.
pub(crate) fn local_arrival(
    store: &MailStore,
    changes: &MailChanges,
    ordered: bool,
    buffer: u16,
    due: u64,
) -> u64
    ensures { let lasts = (mail_after store.now changes.now).local_last in
        result ≡ arrival_after ordered due (last_at lasts buffer) }
{
    if !ordered {
        return due;
    }
    due.max(local_last(store, changes, buffer))
}

/// The words from the next one on, where the network has jitter: the kept ones, if they are those.
pub(crate) fn words_from(
    kept: &mut Option<KeptWords>,
    seed: u64,
    me: u32,
    routes: &Routes,
    drawn: u64,
) -> Option<Words>
    ensures { AreNext (actor_of me seed routes.now) drawn result }
{
    if routes.jitter == 0 {
        return None;
    }
    Some(words_at(kept.take(), seed, u64::from(me), drawn))
}

/// The words after the copies of a send, to be kept for the next one.
pub(crate) fn to_be_kept(
    words: Option<Words>,
    seed: u64,
    me: u32,
    routes: &Routes,
    drawn: u64,
) -> Option<KeptWords>
    requires { AreNext (actor_of me seed routes.now) drawn words }
{
    let _routes = routes;
    match words {
        Some(words) => Some(KeptWords::new(words, seed, u64::from(me), drawn)),
        None => None,
    }
}

/// The jitter of the next copy, for which a word is drawn where there are words.
pub(crate) fn next_jitter(
    words: &mut Option<Words>,
    seed: u64,
    me: u32,
    routes: &Routes,
    drawn: u64,
) -> u64
    requires limits { AreWithinLimits routes.now }
    requires words { AreNext (actor_of me seed routes.now) drawn words.old }
    requires drawn { drawn + 1 < 2 ^ 64 }
    ensures value { result ≡ jitter_at (actor_of me seed routes.now) drawn }
    ensures bound { result ≤ 1000 }
    ensures words { let actor = actor_of me seed routes.now in
        AreNext actor (drawn_after actor drawn) words.new }
{
    match words {
        Some(stream) => u64::from(stream.below((routes.jitter + 1) as u32)),
        None => 0,
    }
}
