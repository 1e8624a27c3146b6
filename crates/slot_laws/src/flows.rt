// Sends as the flow of a plan counts them.
ghost use Rattle.std.specs.Prelude.{◌≡◌, ℕ, List, Some, slice_get};
ghost use Rattle.ruby_symbols.specs.declared.machine.TransitionSymbol.{TransitionSymbol};
ghost use Rattle.slicc_ast.specs.declared.tree.item.Tree.{Tree};
ghost use Rattle.slicc_flow.specs.Sends.{sends};
ghost use Rattle.body_meaning.specs.Prelude.{Reading, send_count};
ghost use Rattle.protocol_meaning.specs.Prelude.{reading_of};

/// What a transition sends on a buffer, or to its network, as it is counted for `Flow::sends`, is what a try of it compares with the
/// free slots, all by the numbers of symbols. It needs no premise on the trees.
pub fn sends_are_those_of_tries()
    ensures { (trees : List Tree) (machine transition buffer : ℕ) (s : Reading)
        (row : TransitionSymbol)
        → reading_of trees machine ≡ Some s
        → slice_get s.machine.transitions transition ≡ Some row
        → sends trees machine transition buffer ≡ send_count s row.actions buffer }
{}
