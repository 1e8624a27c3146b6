ghost use Rattle.std.specs.Prelude.{◌≡◌, ℕ, List, Result, Ok, IfErr};
ghost use Rattle.slicc_ast.specs.declared.tree.item.Tree.{Tree};
ghost use Rattle.slicc_lex.specs.Prelude.{Spells, Reads};
ghost use Rattle.slicc_lex.specs.declared.token.Token.{Token};
ghost use Rattle.slicc_parse.specs.Prelude.{AreEndedOnce, AreWithinLimit, IsParse};
ghost use Rattle.slicc_reading.specs.declared.fault.SyntaxFault.TheVariants.{NoMemory};
ghost use Rattle.slicc_reading.specs.declared.fault.SyntaxFault.{SyntaxFault};

/// The last of a text's tokens, and no other, is the end token, as `parse` wants it.
pub fn tokens_end_once()
    ensures { (file : ℕ) (bytes : List ℕ) (tokens : List Token)
        → Reads file 0 bytes (Ok tokens) → AreEndedOnce tokens }
{}

/// Where the tokens spell a tree and none opens a nesting above 64, the answer is a tree, or there was no memory.
pub fn spelled_files_are_read()
    ensures { (t : Tree) (tokens : List Token) (answer : Result Tree SyntaxFault)
        → Spells t tokens → AreWithinLimit tokens → IsParse tokens answer
        → IfErr answer (λ fault. fault ≡ NoMemory) }
{}
