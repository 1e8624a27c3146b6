//! Rows of programs of action code with what their verification answers: for each rule, each way in which it can be broken, and programs
//! that are accepted. What is wanted is worked out by hand from the rules.
#![tactic(auto)]

mod calls;
mod making;
mod names;
mod operands;
mod operations;
mod row;
mod served;
mod tables;
mod ways;

pub use calls::CALLS;
pub use making::is_answered;
pub use names::NAMES;
pub use operands::OPERANDS;
pub use operations::{Call, OPERATIONS, is_known};
pub use row::{Around, Row, Step, Wanted};
pub use served::SERVED;
pub use tables::TABLES;
pub use ways::WAYS;

#[cfg(test)]
mod tests {
    use super::*;
    use std::alloc::Global;
    use std::process::Abort;

    fn check(rt: &impl Abort, alloc: Global, rows: &[Row]) {
        for row in rows {
            let answered = matches!(is_answered(alloc, row), Ok(true));
            assert!(rt; answered, "{}", row.shows);
        }
    }

    #[test]
    fn operands_are_there_with_their_kinds(rt: HostRuntime) {
        check(&rt, rt.alloc(), OPERANDS);
    }

    #[test]
    fn ways_lead_forward_and_agree(rt: HostRuntime) {
        check(&rt, rt.alloc(), WAYS);
    }

    #[test]
    fn what_is_named_is_there_and_served(rt: HostRuntime) {
        check(&rt, rt.alloc(), NAMES);
    }

    #[test]
    fn references_are_to_lines_of_the_right_tables(rt: HostRuntime) {
        check(&rt, rt.alloc(), TABLES);
    }

    #[test]
    fn each_operation_is_on_takes_and_gives_what_it_should(rt: HostRuntime) {
        for call in OPERATIONS {
            let known = matches!(is_known(rt.alloc(), call), Ok(true));
            assert!(rt; known, "operation {}", call.number);
        }
    }

    #[test]
    fn programs_that_fit_are_verified(rt: HostRuntime) {
        check(&rt, rt.alloc(), SERVED);
        check(&rt, rt.alloc(), CALLS);
    }
}
