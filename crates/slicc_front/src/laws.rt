//! What holds of what files come to. These functions do nothing: their contracts are the laws.
ghost use Rattle.std.specs.Prelude.{◌≡◌};
ghost use Rattle.slicc_files.specs.declared.gathered.Gathered.{Gathered};
ghost use Rattle.slicc_front.specs.Prelude.{IsFrontOf};
ghost use Rattle.slicc_front.specs.declared.answer.Front.{Front};

/// What the files were read as comes to one thing alone, where memory doesn't run out.
pub fn fronts_are_one()
    ensures { (g : Gathered) (f h : Front) → IsFrontOf g f → IsFrontOf g h → f ≡ h }
{}
