// The last arrivals on networks that a scan has written, each once, in the order of networks and then receivers. To find one costs
// what the logarithm of their number does.
ghost use Rattle.std.specs.Prelude.{◌≡◌, ◌<◌, ◌≤◌, ◌+◌, ℕ, vec_capacity, vec_len};
ghost use Rattle.ruby_value.specs.Prelude.{number_before, same_number};
ghost use Rattle.stall_map.specs.Prelude.{IsSplit};
ghost use Rattle.ctl_mail.specs.Log.{ArrivalsRise, kept_at, newer_network, pair_of, place_of, with_written};

use crate::MailAct;

/// When the last copy on a network to a receiver arrives.
#[derive(Clone, Copy)]
pub(crate) struct LastArrival {
    pub(crate) network: u16,
    pub(crate) receiver: u32,
    pub(crate) arrival: u64,
}

impl LastArrival {
    fn is_after(&self, network: u16, receiver: u32) -> bool
        ensures { result ≡ number_before (pair_of network receiver) (place_of self.now) }
    {
        network < self.network || (network == self.network && receiver < self.receiver)
    }

    fn is_at(&self, network: u16, receiver: u32) -> bool
        ensures { result ≡ same_number (place_of self.now) (pair_of network receiver) }
    {
        self.network == network && self.receiver == receiver
    }
}

// How many of them are at networks and receivers up to these.
fn count_up_to(arrivals: &[LastArrival], network: u16, receiver: u32) -> usize
    requires { ArrivalsRise arrivals.now }
    ensures { IsSplit place_of (pair_of network receiver) arrivals.now result }
{
    arrivals.partition_point(|l| !l.is_after(network, receiver))
}

/// The last arrival at a receiver on a network that is kept, if one is.
pub(crate) fn kept_at(arrivals: &[LastArrival], network: u16, receiver: u32) -> Option<u64>
    requires { ArrivalsRise arrivals.now }
    ensures { result ≡ kept_at network receiver arrivals.now }
{
    let at = count_up_to(arrivals, network, receiver);
    if at > 0 && arrivals[at - 1].is_at(network, receiver) {
        return Some(arrivals[at - 1].arrival);
    }
    None
}

// Keeps a last arrival, where there is room. It takes no memory.
fn write(arrivals: &mut Vec<LastArrival>, l: LastArrival)
    requires rise { ArrivalsRise arrivals.old.items }
    requires room { vec_len arrivals.old < vec_capacity arrivals.old }
    ensures after { arrivals.new.items ≡ with_written arrivals.old.items l }
    ensures count { vec_len arrivals.new ≤ vec_len arrivals.old + 1 }
    ensures room { vec_capacity arrivals.old ≤ vec_capacity arrivals.new }
{
    let at = count_up_to(arrivals, l.network, l.receiver);
    if at > 0 && arrivals[at - 1].is_at(l.network, l.receiver) {
        arrivals[at - 1] = l;
        return;
    }
    if arrivals.insert(at, l).is_err() {
        unreachable!()
    }
}

/// Keeps the last arrival on a network that an act writes, if it writes one, where there is room. It takes no memory.
#[inline(always)]
pub(crate) fn keep_act(arrivals: &mut Vec<LastArrival>, act: &MailAct)
    requires rise { ArrivalsRise arrivals.old.items }
    requires room { vec_len arrivals.old < vec_capacity arrivals.old }
    ensures rise { ArrivalsRise arrivals.new.items }
    ensures kept { (network receiver : ℕ)
        → kept_at network receiver arrivals.new.items
        ≡ newer_network network receiver (kept_at network receiver arrivals.old.items) act.now }
    ensures count { vec_len arrivals.new ≤ vec_len arrivals.old + 1 }
    ensures room { vec_capacity arrivals.old ≤ vec_capacity arrivals.new }
{
    if let MailAct::NetworkLast(network, receiver, arrival) = act {
        write(
            arrivals,
            LastArrival {
                network: *network,
                receiver: *receiver,
                arrival: *arrival,
            },
        );
    }
}
