//! What is known of the answers for a protocol.
ghost use Rattle.std.specs.Prelude.{◌≡◌, ◌≢◌, List, Result, Ok, Err, Some, None};
ghost use Rattle.slicc_ast.specs.declared.tree.item.Tree.{Tree};
ghost use Rattle.slicc_plan.specs.AllRules.{nothing};
ghost use Rattle.slicc_plan.specs.Prelude.{AreAbout, IsPlanOf, IsToldOf, broken_rules, common_part, broken_bodies, IsAnswered, broken_declarations, broken_machines, IsFirstBroken};
ghost use Rattle.slicc_plan.specs.declared.broken.Broken.{Broken};
ghost use Rattle.slicc_plan.specs.declared.broken.Subject.TheVariants.{Declarations, Bodies, Machines};
ghost use Rattle.slicc_plan.specs.declared.refusal.Refusal.{Refusal};

/// Where memory suffices, a protocol is always answered by its plan, or always by a rule of one number with a place that begins
/// at one byte, and a second place, if any, that begins at one byte.
pub fn answer_is_one()
    ensures { (trees : List Tree) (a b : Result (List Tree) Refusal) → IsPlanOf trees a → IsPlanOf trees b
        → common_part a ≢ nothing → common_part b ≢ nothing → common_part a ≡ common_part b }
{}

/// What is told phase by phase is the first of all broken rules in their order, as long as what is broken in declarations, in
/// bodies and in machines is by rules that are about them.
pub fn told_is_first_of_all()
    ensures { (trees : List Tree) (b : Broken)
        → AreAbout Declarations (broken_declarations trees) → AreAbout Bodies (broken_bodies trees)
        → AreAbout Machines (broken_machines trees)
        → IsToldOf trees b → IsFirstBroken (broken_rules trees) b }
{}

/// The phases' answers, one after another, are that for the protocol: a checker may stop after a phase in which a rule is
/// broken.
pub fn phases_answer()
    ensures declarations { (trees : List Tree) (r : Refusal)
        → IsAnswered (broken_declarations trees) (Some r) → IsPlanOf trees (Err r) }
    ensures bodies { (trees : List Tree) (r : Refusal) → IsAnswered (broken_declarations trees) None
        → IsAnswered (broken_bodies trees) (Some r) → IsPlanOf trees (Err r) }
    ensures machines { (trees : List Tree) (r : Refusal) → IsAnswered (broken_declarations trees) None
        → IsAnswered (broken_bodies trees) None → IsAnswered (broken_machines trees) (Some r) → IsPlanOf trees (Err r) }
    ensures plan { (trees : List Tree) → IsAnswered (broken_declarations trees) None
        → IsAnswered (broken_bodies trees) None → IsAnswered (broken_machines trees) None → IsPlanOf trees (Ok trees) }
{}
