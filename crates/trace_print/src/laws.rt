// What holds of the names of controllers. This function does nothing: its contract is the law.
ghost use Rattle.std.specs.Prelude.{◌≡◌, ◌≢◌, ◌∷◌, ◌++◌, ℕ, List, EachIndex, Some, slice_get, slice_index};
ghost use Rattle.ruby_symbols.specs.Prelude.{machine_named};
ghost use Rattle.ruby_symbols.specs.declared.machine.MachineSymbols.{MachineSymbols};
ghost use Rattle.ruby_symbols.specs.declared.symbols.Symbols.{Symbols};
ghost use Rattle.trace_print.specs.Prelude.{machine_of};

/// A controller whose name is that of a machine, a dash and whatever follows is one of that machine, where the machine's name has no
/// dash and names that machine.
pub fn machine_is_found_by_name()
    ensures { (symbols : Symbols) (m : MachineSymbols) (number : ℕ) (place : List ℕ)
        → EachIndex m.name (λ k. slice_index m.name k ≢ 45)
        → machine_named symbols m.name ≡ Some number → slice_get symbols.machines number ≡ Some m
        → machine_of symbols (m.name ++ 45 ∷ place) ≡ Some m }
{}
