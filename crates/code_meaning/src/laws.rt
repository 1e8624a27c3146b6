// What holds of operations and bodies. These functions do nothing: their contracts are the laws.
ghost use Rattle.std.specs.Prelude.{◌≡◌, ℕ, true, Option, Some, List, slice_get};
ghost use Rattle.ruby_value.specs.declared.value.Value.{Value};
ghost use Rattle.ctl_face.specs.Prelude.{IsLawful, LocalView};
ghost use Rattle.acts.specs.Prelude.{run};
ghost use Rattle.built_in_acts.specs.declared.machines.KeptMachines.{KeptMachines};
ghost use Rattle.built_in_acts.specs.Prelude.{built_in};
ghost use Rattle.action_code.specs.declared.instr.Code.{Code};
ghost use Rattle.action_code.specs.declared.operations.Operation.{Operation};
ghost use Rattle.action_code.specs.declared.program.MachineDecl.{MachineDecl};
ghost use Rattle.action_code.specs.declared.program.Program.{Program};
ghost use Rattle.action_code.specs.Prelude.{Fits, answered, machine_of, operations, serves, tables_of};
ghost use Rattle.code_meaning.specs.Prelude.{HoldsOfAnswer, IsAnswer, IsDeclared, are_of_kinds, is_end_of, run_body};

/// What an operation answers in a lawful local is what the table of operations says, where the operation is served: nothing, or a value
/// of the kind there, whatever the arguments are.
pub fn operations_answer_their_kinds()
    ensures { (m : Option MachineDecl) (kept : KeptMachines) (n on : ℕ) (o : Operation)
        (arguments : List Value) (v : LocalView)
        → slice_get operations n ≡ Some o → serves m on o.on ≡ true → IsLawful v
        → HoldsOfAnswer (IsAnswer (tables_of m) (answered m on o.answer))
        (run (built_in kept n on arguments) v) }
{}

/// A body of a program that fits, with arguments of its kinds in a lawful local of its machine, ends as it is declared to: without a
/// result or with one of its kind, unless it triggers or stops.
pub fn bodies_end_as_declared()
    ensures { (p : Program) (n : ℕ) (c : Code) (arguments : List Value) (v : LocalView)
        → Fits p → slice_get p.bodies n ≡ Some c
        → are_of_kinds (tables_of (machine_of p c)) c.arguments arguments ≡ true
        → IsDeclared p (machine_of p c) v.machine → IsLawful v
        → HoldsOfAnswer (λ end. is_end_of (tables_of (machine_of p c)) c.result end ≡ true)
        (run (run_body p n arguments) v) }
{}
