ghost use Rattle.std.specs.Prelude.{◌≡◌, ◌≤◌};
ghost use Rattle.ruby_outside.specs.Plan.{begun, is_planned, after_call, after_fault};

use ruby_base::Seq;
use std::marker::Model;

/// At which calls a library or a sink in memory is to fail, with the counts of its calls and its faults. Each count
/// stands still at 2^64 - 1.
#[derive(Drop)]
pub struct Plan {
    fails: Seq<u64>,
    calls: u64,
    faults: u64,
}

impl Model for Plan {
    ghost use Rattle.ruby_outside.specs.Plan.{PlanState};

    ghost Value = { PlanState };

    ghost view = { λ p. record { fails = p.fails; calls = p.calls; faults = p.faults } };
}

impl Plan {
    /// A plan in which the calls with these numbers, counted from 1, are to fail.
    pub fn new(fails: Seq<u64>) -> Plan
        ensures { result ≡ begun fails }
    {
        Plan {
            fails,
            calls: 0,
            faults: 0,
        }
    }

    /// Begins a call, and answers whether it is to fail. If so, that is a fault.
    pub fn fails_next(&mut self) -> bool
        ensures answer { result ≡ is_planned self.old }
        ensures after { self.new ≡ after_call self.old }
        ensures counts { self.old.faults ≤ self.new.faults }
    {
        self.calls = self.calls.saturating_add(1);
        let is_planned = self.fails.as_slice().contains(&self.calls);
        if is_planned {
            self.faults = self.faults.saturating_add(1);
        }
        is_planned
    }

    /// Counts a fault that wasn't planned.
    pub fn add_fault(&mut self)
        ensures after { self.new ≡ after_fault self.old }
        ensures counts { self.old.faults ≤ self.new.faults }
    {
        self.faults = self.faults.saturating_add(1);
    }
}
