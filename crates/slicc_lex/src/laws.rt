ghost use Rattle.std.specs.Prelude.{◌≡◌, ◌≤◌, ◌+◌, ℕ, List, Result, Ok, length};
ghost use Rattle.slicc_ast.specs.Prelude.{expr, shape_of, block_outline, tree};
ghost use Rattle.slicc_ast.specs.declared.tree.expression.Expr.{Expr};
ghost use Rattle.slicc_ast.specs.declared.tree.item.Tree.{Tree};
ghost use Rattle.slicc_ast.specs.declared.tree.statement.Block.{Block};
ghost use Rattle.slicc_lex.specs.Prelude.{AreEnded, Spells, SpellsNode, Reads};
ghost use Rattle.slicc_lex.specs.declared.token.Token.{Token};
ghost use Rattle.slicc_lex.specs.declared.fault.LexFault.{LexFault};

/// The bytes of a file have one list of tokens or one first fault, so that the contract of `lex` leaves no choice.
pub fn readings_are_one()
    ensures { (file : ℕ) (bytes : List ℕ) (a b : Result (List Token) LexFault) → Reads file 0 bytes a → Reads file 0 bytes b → a ≡ b }
{}

/// Trees that the same tokens spell are equal, spans aside; so are blocks and expressions.
pub fn spelled_trees_are_one()
    ensures file { (tokens : List Token) (t u : Tree) → Spells t tokens → Spells u tokens → shape_of (tree t) ≡ shape_of (tree u) }
    ensures block { (tokens : List Token) (b c : Block) → SpellsNode (block_outline b) tokens → SpellsNode (block_outline c) tokens → shape_of (block_outline b) ≡ shape_of (block_outline c) }
    ensures expression { (tokens : List Token) (e f : Expr) → SpellsNode (expr e) tokens → SpellsNode (expr f) tokens → shape_of (expr e) ≡ shape_of (expr f) }
{}

/// The last of a text's tokens is the end token, and there are at most as many others as bytes.
pub fn tokens_are_ended()
    ensures ended { (file : ℕ) (bytes : List ℕ) (tokens : List Token) → Reads file 0 bytes (Ok tokens) → AreEnded tokens }
    ensures few { (file : ℕ) (bytes : List ℕ) (tokens : List Token) → Reads file 0 bytes (Ok tokens) → length tokens ≤ length bytes + 1 }
{}
