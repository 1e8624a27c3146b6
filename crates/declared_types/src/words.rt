//! Names that are put together from parts.
ghost use Rattle.std.specs.Prelude.{◌≡◌, ◌++◌, ℕ, List, false, MatchOption};
ghost use Rattle.std.specs.Str.{bytes_eq};

/// What follows these first bytes of a text, where it begins with them.
pub fn after_prefix<'a>(text: &'a [u8], prefix: &[u8]) -> Option<&'a [u8]>
    ensures { MatchOption result ((rest : List ℕ) → bytes_eq (prefix.now ++ rest) text.now ≡ false) (λ rest. text.now ≡ prefix.now ++ rest.now) }
{
    text.strip_prefix(prefix)
}

/// What precedes these last bytes of a text, where it ends with them.
pub fn before_suffix<'a>(text: &'a [u8], suffix: &[u8]) -> Option<&'a [u8]>
    ensures { MatchOption result ((rest : List ℕ) → bytes_eq (rest ++ suffix.now) text.now ≡ false) (λ rest. text.now ≡ rest.now ++ suffix.now) }
{
    text.strip_suffix(suffix)
}
