// What is known of the code of bodies. This function does nothing: its contract is the law.
ghost use Rattle.code_laws.specs.ExpressionLaw.{ExpressionsDo};

/// The code of each expression in which the rules find nothing broken does what the expression means: it makes the same acts in the same
/// order, stops with the same fault, and leaves what the expression gives. So it is wherever the names of the body are held alike by the
/// rules, by the code and by what the body means, and where what the body calls does so.
pub fn expressions_do_what_they_mean()
    ensures { ExpressionsDo }
{}
