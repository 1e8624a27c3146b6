// The last arrivals that later copies may not come before.
ghost use Rattle.std.specs.Prelude.{◌≡◌, ◌+◌, ◌≤◌, ℕ, IfOk, OnOk, map, replicate};
ghost use Rattle.std.specs.FinMap.{empty};
ghost use Rattle.ruby_value.specs.Prelude.{Roomy};
ghost use Rattle.ctl_face.specs.Prelude.{network_count, Lasts, with_last};
ghost use Rattle.ctl_mail.specs.Prelude.{lasts_in, HasLastRoom};

use ruby_value::{LineMap, NoMemory};
use std::alloc::Global;

/// No last arrivals on any network, of which there are 16.
pub(crate) fn empty_lasts(alloc: Global) -> Result<Vec<LineMap<u64>>, NoMemory>
    ensures { IfOk result (λ networks. map (λ (lasts : Roomy Lasts). lasts.kept) networks.items ≡ replicate network_count empty) }
{
    let mut networks = Vec::new(alloc);
    for _ in 0..16_usize {
        networks.push(LineMap::new(alloc))?;
    }
    Ok(networks)
}

/// Writes a last arrival at a receiver on a network, where there is room and there is this network. It takes no memory.
pub(crate) fn put(networks: &mut Vec<LineMap<u64>>, network: u16, receiver: u32, arrival: u64)
    requires { HasLastRoom networks.old.items network 1 }
    ensures after { let lasts = lasts_in networks.old.items in
        lasts_in networks.new.items ≡ with_last lasts network receiver arrival }
    ensures room { (other n : ℕ)
        → HasLastRoom networks.old.items other (n + 1)
        → HasLastRoom networks.new.items other n }
{
    match networks.get_mut(usize::from(network)) {
        Some(lasts) => {
            let _before = lasts.put(u64::from(receiver), arrival);
        }
        None => {}
    }
}

/// Makes room for so many more receivers on a network, if there is this network, or answers that there is no memory for them.
pub(crate) fn reserve(
    networks: &mut Vec<LineMap<u64>>,
    network: u16,
    more: usize,
) -> Result<(), NoMemory>
    ensures same { lasts_in networks.new.items ≡ lasts_in networks.old.items }
    ensures ok { OnOk result (HasLastRoom networks.new.items network more) }
    ensures room { (other n : ℕ)
        → HasLastRoom networks.old.items other n
        → HasLastRoom networks.new.items other n }
{
    match networks.get_mut(usize::from(network)) {
        Some(lasts) => lasts.reserve(more),
        None => Ok(()),
    }
}
