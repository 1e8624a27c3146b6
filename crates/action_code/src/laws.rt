ghost use Rattle.std.specs.Prelude.{◌↔◌};
ghost use Rattle.action_code.specs.declared.program.Program.{Program};
ghost use Rattle.action_code.specs.EachPlace.{FitsEachPlace};
ghost use Rattle.action_code.specs.Fits.{Fits};

/// A program fits exactly where each of its bodies has an instruction, and each instruction keeps each rule.
pub fn fits_at_each_place()
    ensures { (p : Program) → Fits p ↔ FitsEachPlace p }
{}
