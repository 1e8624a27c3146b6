ghost use Rattle.std.specs.Prelude.{◌≡◌, IfOk};
ghost use Rattle.run_journal.specs.Prelude.{part_of};

use crate::{Entry, Journal, NoMemory, Seq};
use std::alloc::Global;

/// The entries of one controller, in their order: the transitions that it fired and the ends of its wake-ups. An entry
/// of a turn is nobody's. It goes over the journal once.
pub fn part(alloc: Global, j: &Journal, controller: u32) -> Result<Seq<Entry>, NoMemory>
    ensures { IfOk result (λ entries. entries ≡ part_of controller j.now) }
{
    let mut entries = Seq::new(alloc);
    for place in 0..j.len() {
        let entry = j.entry(place);
        if entry.is_of(controller) {
            entries.push(entry.to_entry(alloc)?)?;
        }
    }
    Ok(entries)
}
