//! A journal as two workers may have made it, and what cycle order makes of it. It is a crate of its own, since a crate with tests is
//! proved twice.
#![tactic(auto)]

mod sample;

pub use sample::{Step, journal_of, steps_of};

#[cfg(test)]
mod tests {
    use super::*;
    use cycle_order::in_order;
    use std::alloc::Global;

    fn orders(alloc: Global, steps: &[Step], wanted: &[Step]) -> bool {
        let Ok(journal) = journal_of(alloc, steps) else {
            return false;
        };
        let Ok(ordered) = in_order(alloc, &journal) else {
            return false;
        };
        let Ok(answered) = steps_of(alloc, &ordered) else {
            return false;
        };
        answered.as_slice() == wanted
    }

    #[test]
    fn entries_of_a_cycle_stand_by_controllers(rt: HostRuntime) {
        let came = [
            Step::Fires(1, 64),
            Step::Ends(2),
            Step::Fires(0, 64),
            Step::Fires(1, 0),
            Step::Ends(0),
            Step::Ends(1),
            Step::Turns,
        ];
        let wanted = [
            Step::Fires(0, 64),
            Step::Ends(0),
            Step::Fires(1, 64),
            Step::Fires(1, 0),
            Step::Ends(1),
            Step::Ends(2),
            Step::Turns,
        ];
        assert!(rt; orders(rt.alloc(), &came, &wanted), "one cycle");
    }

    #[test]
    fn no_entry_leaves_its_cycle(rt: HostRuntime) {
        let came = [
            Step::Ends(1),
            Step::Turns,
            Step::Ends(1),
            Step::Ends(0),
            Step::Turns,
            Step::Ends(0),
        ];
        let wanted = [
            Step::Ends(1),
            Step::Turns,
            Step::Ends(0),
            Step::Ends(1),
            Step::Turns,
            Step::Ends(0),
        ];
        assert!(rt; orders(rt.alloc(), &came, &wanted), "three cycles");
    }
}
