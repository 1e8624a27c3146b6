ghost use Rattle.std.specs.Prelude.{◌+ℤ◌, ◌-ℤ◌, ◌*ℤ◌, FitsSigned};
ghost use Rattle.std.specs.Int.{w64};
ghost use Rattle.std.specs.Option.{SomeIff};

/// The sum of two signed numbers, or `None` exactly where it is outside 64 bits. That nothing wraps is this
/// project's own rule; in gem5 it is left to C++. So it is for `sub` and `mul`.
pub fn add(a: i64, b: i64) -> Option<i64>
    ensures { SomeIff result (FitsSigned w64 (a +ℤ b)) (a +ℤ b) }
{
    a.checked_add(b)
}

/// The first number less the second, or `None` exactly where that is outside signed 64 bits.
pub fn sub(a: i64, b: i64) -> Option<i64>
    ensures { SomeIff result (FitsSigned w64 (a -ℤ b)) (a -ℤ b) }
{
    a.checked_sub(b)
}

/// The product of two signed numbers, or `None` exactly where it is outside 64 bits.
pub fn mul(a: i64, b: i64) -> Option<i64>
    ensures { SomeIff result (FitsSigned w64 (a *ℤ b)) (a *ℤ b) }
{
    a.checked_mul(b)
}
