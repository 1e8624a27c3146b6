ghost use Rattle.std.specs.Prelude.{ℕ, List};

/// What a turn lock may keep. It has two meanings that exist in contracts alone: a plan, which no turn changes, and a history,
/// a list of numbers to which each turn may add. The owner of an entry n is n / 256 % 256.
pub trait Kept: Send + Drop {
    /// A type whose values contracts speak of. A running program makes none.
    type Plan;

    ghost plan: { Self → Self.Plan };

    ghost history: { Self → List ℕ };
}
