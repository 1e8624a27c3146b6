//! What is known of the definitions of this crate.
ghost use Rattle.std.specs.Prelude.{◌≡◌, List, None};
ghost use Rattle.slicc_plan.specs.Prelude.{IsFirstBroken, IsFirstOf, first_after, rank_of};
ghost use Rattle.slicc_plan.specs.declared.broken.Broken.{Broken};

/// Of broken rules one at most is the first: two that are have one number, one place and one second place, if any, where of a
/// place its file and its first byte count.
pub fn first_is_one()
    ensures { (all : List Broken) (b c : Broken) → IsFirstBroken all b
        → IsFirstBroken all c → rank_of b ≡ rank_of c }
{}

/// Going through broken rules, of which each is compared with the first before it, ends with the first of all.
pub fn first_is_found()
    ensures { (all : List Broken) → IsFirstOf all (first_after None all) }
{}
