//! What is known of the definitions of calls.
ghost use Rattle.slicc_plan.specs.Prelude.{IsReaching};

/// Looking for calls inside of calls as deep as there are functions finds all functions that are reached, and no others.
pub fn reaching_is_decided()
    ensures { IsReaching }
{}
