// What is known of the sizes of accepted protocols.
ghost use Rattle.std.specs.Prelude.{◌≡◌, ◌≤◌, All, IfSome, length, slice_get};
ghost use Rattle.std.specs.Option.{option_copied};
ghost use Rattle.slicc_plan.specs.Prelude.{symbols_of, HasNumbers};

use ruby_symbols::MachineSymbols;
use slicc_plan::{Plan, lists_have_numbers, machines_are_few};

// A plan is that of an accepted protocol. It does nothing.
pub(crate) fn plans_are_small(plan: &Plan)
    ensures machines { length (symbols_of plan.now).machines ≤ 16 }
    ensures numbers { All HasNumbers (symbols_of plan.now).machines }
{
    let _trees = plan.trees();
    machines_are_few();
    lists_have_numbers();
}

// The symbols of the machine of this number, whose lists are short.
pub(crate) fn machine_of(plan: &Plan, number: u16) -> Option<&MachineSymbols>
    ensures is { option_copied result ≡ slice_get (symbols_of plan.now).machines number }
    ensures numbers { IfSome (option_copied result) HasNumbers }
{
    plans_are_small(plan);
    plan.symbols().machines.get(usize::from(number))
}
