// What comes later is nothing to the scans of a protocol. This function does nothing: its contract is the law.
ghost use Rattle.std.specs.Prelude.{List};
ghost use Rattle.slicc_ast.specs.declared.tree.item.Tree.{Tree};
ghost use Rattle.protocol_runs.specs.Prelude.{IsFramedMeaning};
ghost use Rattle.protocol_meaning.specs.Prelude.{meaning_of};

/// Messages and credits that come to a controller, and are for later cycles, leave what a scan of any trees answers as it is, but that they are in
/// the controller which the scan leaves. It needs no premise on the trees.
pub fn meanings_are_framed()
    ensures { (trees : List Tree) → IsFramedMeaning (meaning_of trees) }
{}
