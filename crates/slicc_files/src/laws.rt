//! What holds of outlines and trees, of reading and of gathering. These functions do nothing: their contracts are the laws.
ghost use Rattle.std.specs.Prelude.{◌≡◌, ◌≢◌, ℕ, List, Result, true};
ghost use Rattle.ruby_outside.specs.Prelude.{Files};
ghost use Rattle.slicc_ast.specs.Prelude.{is_allowed, shape_of, spans_of, tree};
ghost use Rattle.slicc_ast.specs.declared.tree.item.Tree.{Tree};
ghost use Rattle.slicc_files.specs.Prelude.{IsGatheredFrom, IsGatheredOver, Read, AreOfOneNameEach, IsReadText};
ghost use Rattle.slicc_files.specs.declared.gathered.Gathered.TheVariants.{NoMemory};
ghost use Rattle.slicc_files.specs.declared.gathered.Gathered.{Gathered};
ghost use Rattle.slicc_files.specs.declared.reading.Broken.{Broken};

/// The bytes of a file have one tree, with one place for each of its nodes, or break one rule at one place before any other.
pub fn texts_are_read_in_one_way()
    ensures { (file : ℕ) (bytes : List ℕ) (a b : Result Tree Broken)
        → IsReadText file bytes a → IsReadText file bytes b → a ≡ b }
{}

/// The same reads lead to one answer where memory doesn't run out, and so do the same files. No name is read twice.
pub fn files_are_gathered_in_one_way()
    ensures by_reads { (name : List ℕ) (reads : List Read) (g h : Gathered)
        → IsGatheredFrom name reads g → IsGatheredFrom name reads h
        → g ≢ NoMemory → h ≢ NoMemory → g ≡ h }
    ensures over_files { (files : Files) (name : List ℕ) (g h : Gathered)
        → IsGatheredOver files name g → IsGatheredOver files name h
        → g ≢ NoMemory → h ≢ NoMemory → g ≡ h }
    ensures once { (name : List ℕ) (reads : List Read) (g : Gathered)
        → IsGatheredFrom name reads g → AreOfOneNameEach reads }
{}

/// A tree is what its outline says: two trees that keep the grammar's conditions, with the same shape and the same spans,
/// are equal.
pub fn outlines_have_one_tree()
    ensures { (t u : Tree) → is_allowed (tree t) ≡ true → is_allowed (tree u) ≡ true
        → shape_of (tree t) ≡ shape_of (tree u) → spans_of (tree t) ≡ spans_of (tree u) → t ≡ u }
{}
