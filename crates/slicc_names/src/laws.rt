//! Laws of the names of a protocol's scopes. These functions do nothing: their contracts are the laws.
ghost use Rattle.std.specs.Prelude.{◌≡◌, ◌≤◌, ℕ, All, List, [], Some, is_some, length, slice_get};
ghost use Rattle.slicc_ast.specs.declared.tree.item.Tree.{Tree};
ghost use Rattle.slicc_names.specs.Prelude.{KeepGrammar, all_names, name_number};
ghost use Rattle.slicc_plan.specs.Prelude.{broken_declarations, Scope, declared_in, first_named, wide_scopes};

/// No scope has more names than there are numbers of 16 bits, where no rule of declarations is broken.
pub fn names_have_numbers()
    ensures { (trees : List Tree) → KeepGrammar trees → broken_declarations trees ≡ []
        → All (λ (names : List (List ℕ)). length names ≤ 65536) (all_names trees) }
{}

/// So a name has a number exactly where the scope declares it.
pub fn declared_names_are_found()
    ensures { (trees : List Tree) → KeepGrammar trees → broken_declarations trees ≡ []
        → (number : ℕ) (scope : Scope) → slice_get (wide_scopes trees) number ≡ Some scope → (name : List ℕ)
        → is_some (name_number (all_names trees) number name) ≡ is_some (first_named name (declared_in trees scope)) }
{}
