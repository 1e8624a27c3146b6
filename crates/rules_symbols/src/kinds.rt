ghost use Rattle.std.specs.Prelude.{◌≡◌, ℕ, true, Some, List, slice_get};
ghost use Rattle.ruby_symbols.specs.Prelude.{kind_named};
ghost use Rattle.ruby_value.specs.declared.kind.Kind.{Kind};
ghost use Rattle.slicc_ast.specs.declared.tree.item.Tree.{Tree};
ghost use Rattle.slicc_ast.specs.declared.tree.machine.Machine.{Machine};
ghost use Rattle.slicc_plan.specs.Prelude.{IsAccepted, KnownType, agree, is_value, machine_symbols, machines_of, symbols_of, type_in, value_kind, within};

/// Two types whose values may stand for each other have one kind, down to the default member, or none.
pub fn types_that_agree_have_one_kind()
    ensures { (trees : List Tree) (m : Machine) (t u : KnownType) → agree t u ≡ true
        → value_kind trees m t ≡ value_kind trees m u }
{}

/// In an accepted protocol a type of values that a machine has a name for has a kind there.
pub fn types_of_values_have_kinds()
    ensures { (trees : List Tree) (k : ℕ) (m : Machine) (text : List ℕ) (t : KnownType)
        → IsAccepted trees → slice_get (machines_of trees) k ≡ Some m
        → type_in trees (within m) text ≡ Some t → is_value m t ≡ true
        → (kind : Kind) × (value_kind trees m t ≡ Some kind) }
{}

/// The kind that symbols give to a type's name is that of the type.
pub fn names_of_types_have_kinds()
    ensures { (trees : List Tree) (k : ℕ) (m : Machine) (text : List ℕ) (t : KnownType) (kind : Kind)
        → IsAccepted trees → slice_get (machines_of trees) k ≡ Some m
        → type_in trees (within m) text ≡ Some t → value_kind trees m t ≡ Some kind
        → kind_named (symbols_of trees) k (machine_symbols trees k m) text ≡ Some kind }
{}
