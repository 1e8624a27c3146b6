// What holds of the grammar. These functions do nothing: their contracts are the laws.
ghost use Rattle.std.specs.Prelude.{◌≡◌, ◌↔◌, ℕ, true, List, [], ◌∷◌, ◌++◌, map};
ghost use Rattle.std.specs.List.{Contains};
ghost use Rattle.slicc_ast.specs.Prelude.{choices_of, IsFirstFault, IsWithin, Stop, Passed, done, form, end, Derives, Extent, IsViable, Matches, IsPredictive, is_predictive, Fails, Passes, HaveSameLists, expr, are_allowed, is_allowed, kinds_in, kinds_of, none, shape_of, block_outline, tree, Form, all_forms, expression, file, spelling, end_of_text, kind_of, table, written};
ghost use Rattle.slicc_ast.specs.Statements.{block};
ghost use Rattle.slicc_ast.specs.declared.tree.expression.Expr.{Expr};
ghost use Rattle.slicc_ast.specs.declared.tree.item.Tree.{Tree};
ghost use Rattle.slicc_ast.specs.declared.tree.statement.Block.{Block};
ghost use Rattle.slicc_ast.specs.Form.Form.{block as block_form};

/// One token ahead decides in the table, which has the lists of tokens of the written grammar, and leaves the same
/// nestings open behind them.
pub fn one_token_ahead_decides()
    ensures computed { is_predictive table all_forms ≡ true }
    ensures all { (n : Form) → Contains all_forms n }
    ensures decided { IsPredictive table }
    ensures written { HaveSameLists written table }
{}

/// So a reader that goes by the table stops exactly where the list does by the written grammar, and by the table a list is
/// a form in one way at most.
pub fn reader_keeps_to_the_written_grammar()
    ensures passes { (limit : ℕ) (n : Form) (tokens left : List ℕ) → Passes table limit (form n) tokens left → IsFirstFault written limit n tokens (Passed left) }
    ensures fails { (limit : ℕ) (n : Form) (tokens : List ℕ) (stop : Stop) → Fails table limit (form n) tokens stop → IsFirstFault written limit n tokens stop }
    ensures one { (n : Form) (tokens : List ℕ) (m k : Matches table Extent.Whole (form n done) end tokens 0) → choices_of m ≡ choices_of k }
{}

/// What a tree spells, where its conditions hold, is of the written grammar: a file with the end of the text behind it, a
/// block, and an expression. So where no token of a file opens a nesting above the limit, it has no fault: it passes whole.
pub fn trees_are_of_the_written_grammar()
    ensures file { (t : Tree) → is_allowed (tree t) ≡ true → Derives written (form file done) end (spelling (tree t) ++ end_of_text ∷ []) }
    ensures passes { (limit : ℕ) (t : Tree) (stop : Stop) → is_allowed (tree t) ≡ true → IsWithin written limit (form file done) end (spelling (tree t) ++ end_of_text ∷ []) → IsFirstFault written limit file (spelling (tree t) ++ end_of_text ∷ []) stop → stop ≡ Passed [] }
    ensures block { (b : Block) → are_allowed (block b none) ≡ true → Derives written (form block_form done) end (map kind_of (kinds_in (block b none))) }
    ensures expression { (e : Expr) → is_allowed (expr e) ≡ true → Derives written (form expression done) end (spelling (expr e)) }
{}

/// A list of tokens spells one tree at most, spans aside: a file, a block or an expression whose conditions hold has the
/// shape of each other one that is spelled by the same tokens.
pub fn tokens_spell_one_tree()
    ensures file { (t u : Tree) → is_allowed (tree t) ≡ true → is_allowed (tree u) ≡ true → kinds_of (tree t) ≡ kinds_of (tree u) → shape_of (tree t) ≡ shape_of (tree u) }
    ensures block { (b c : Block) → is_allowed (block_outline b) ≡ true → is_allowed (block_outline c) ≡ true → kinds_of (block_outline b) ≡ kinds_of (block_outline c) → shape_of (block_outline b) ≡ shape_of (block_outline c) }
    ensures expression { (e f : Expr) → is_allowed (expr e) ≡ true → is_allowed (expr f) ≡ true → kinds_of (expr e) ≡ kinds_of (expr f) → shape_of (expr e) ≡ shape_of (expr f) }
{}

/// Each form of the written grammar has a list of tokens. So a list is viable for a form exactly where it is the front of a
/// list of the form: what begins a file so far is the start of some file.
pub fn every_form_has_a_list()
    ensures lists { (n : Form) → (tokens : List ℕ) × Derives written (form n done) end tokens }
    ensures viable { (n : Form) (tokens : List ℕ) → IsViable written n tokens ↔ ((rest : List ℕ) × Derives written (form n done) end (tokens ++ rest)) }
{}
