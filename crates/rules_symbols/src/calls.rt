ghost use Rattle.std.specs.Prelude.{◌≡◌, ◌≤◌, ℕ, false, Some, List, [], length, option_and_then, slice_get};
ghost use Rattle.action_code.specs.Operations.{operations};
ghost use Rattle.rules_symbols.specs.IsAmong.{IsAmong};
ghost use Rattle.slicc_plan.specs.BuiltInCalls.{Call, calls};
ghost use Rattle.slicc_plan.specs.Meanings.{Wanted};
ghost use Rattle.slicc_plan.specs.Prelude.{Environment, Given, wrong_arguments};
ghost use Rattle.rules_symbols.specs.Prelude.{AreArguments, IsTyped, is_other_work, number_of_call, operation_of};

/// Each built-in call is an operation of action code, written with each count of arguments that it may have, but those whose work other
/// instructions do: the operation of its number is on what the call is on, takes its arguments' kinds and gives its answer's kind.
pub fn calls_are_operations()
    ensures { (c : Call) (more : ℕ) → IsAmong calls c → is_other_work c ≡ false
        → more ≤ length c.perhaps
        → option_and_then (slice_get operations) (number_of_call c more) ≡ Some (operation_of c more) }
{}

/// Where nothing is broken in the arguments of a call, and each stands for something that is known if nothing is broken in it, each fits
/// what is wanted where it is; where a new line is wanted there is `new` and a type that agrees with the table's.
pub fn arguments_fit()
    ensures { (env : Environment) (wanted : List Wanted) (given : List Given)
        → length given ≤ length wanted
        → ((g : Given) → IsAmong given g → g.typed.broken ≡ []
        → IsTyped env.trees env.machine g.typed.meaning)
        → wrong_arguments env wanted given ≡ [] → AreArguments env wanted given }
{}
