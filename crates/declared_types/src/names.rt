//! What has a name of its own: members of enumerations, and machines.
ghost use Rattle.std.specs.Prelude.{◌≡◌, ℕ, List};
ghost use Rattle.std.specs.Borrow.{Bor};
ghost use Rattle.slicc_ast.specs.declared.tree.declaration.State.{State};
ghost use Rattle.slicc_ast.specs.declared.tree.declaration.Symbol.{Symbol};
ghost use Rattle.slicc_ast.specs.declared.tree.machine.Machine.{Machine};

use slicc_ast::tree::{Machine, State, Symbol};

/// What has a name.
pub trait Named {
    ghost text: { Self → List ℕ };

    /// The name.
    fn text(&self) -> &[u8]
        ensures { result.now ≡ text self.now };
}

impl Named for Symbol {
    ghost text = { λ (s : Symbol). s.name.text };

    fn text(&self) -> &[u8] {
        self.name.text.as_slice()
    }
}

impl Named for State {
    ghost text = { λ (s : State). s.name.text };

    fn text(&self) -> &[u8] {
        self.name.text.as_slice()
    }
}

impl Named for &Machine {
    ghost text = { λ (m : Bor Machine). m.now.name.text };

    fn text(&self) -> &[u8] {
        self.name.text.as_slice()
    }
}

impl Named for &str {
    ghost text = { λ (s : Bor (List ℕ)). s.now };

    fn text(&self) -> &[u8] {
        self.as_bytes()
    }
}
