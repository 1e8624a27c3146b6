//! What a file says is one thing.
ghost use Rattle.std.specs.Prelude.{◌≡◌, ℕ, List};
ghost use Rattle.ruby_symbols.specs.declared.symbols.Symbols.{Symbols};
ghost use Rattle.ruby_topology.specs.declared.topology.Topology.{Topology};
ghost use Rattle.ruby_topology.specs.Prelude.{IsRefused, IsTopologyOf};

/// A file has one topology at most, or is refused by one rule at one line at most, and not both.
pub fn answers_are_one()
    ensures topology { (symbols : Symbols) (bytes : List ℕ) (t u : Topology) → IsTopologyOf symbols bytes t
        → IsTopologyOf symbols bytes u → t ≡ u }
    ensures refusal { (symbols : Symbols) (bytes : List ℕ) (rule line other at : ℕ) → IsRefused symbols bytes rule line
        → IsRefused symbols bytes other at → (rule ≡ other) × (line ≡ at) }
    ensures either { (symbols : Symbols) (bytes : List ℕ) (t : Topology) (rule line : ℕ) → IsTopologyOf symbols bytes t
        → IsRefused symbols bytes rule line → ⊥ }
{}
