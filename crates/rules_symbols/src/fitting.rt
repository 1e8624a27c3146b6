ghost use Rattle.std.specs.Prelude.{◌≡◌, true, Some, List, [], ◌∷◌};
ghost use Rattle.ruby_value.specs.declared.kind.Kind.{Kind};
ghost use Rattle.slicc_ast.specs.declared.tree.item.Tree.{Tree};
ghost use Rattle.slicc_ast.specs.declared.tree.machine.Machine.{Machine};
ghost use Rattle.slicc_plan.specs.Prelude.{KnownType, Meaning, fits, one_of, value_kind};
ghost use Rattle.rules_symbols.specs.Prelude.{IsOfKind, IsSure};

/// What fits where a value of a type is wanted, and isn't told already to be wrong, has the kind of that type's values: it is a value
/// of that kind, or `OOD` where that is a kind of references.
pub fn what_fits_has_the_kind()
    ensures { (trees : List Tree) (m : Machine) (t : KnownType) (k : Kind) (meaning : Meaning)
        → value_kind trees m t ≡ Some k → fits m (one_of (t ∷ [])) meaning ≡ true → IsSure meaning
        → IsOfKind trees m k meaning }
{}
