// What names stand for in a machine of an accepted protocol.
ghost use Rattle.std.specs.Prelude.{◌≡◌, ℕ, true, None, Some, List, [], ◌∷◌, slice_get};
ghost use Rattle.ruby_symbols.specs.declared.machine.BufferSymbol.{BufferSymbol};
ghost use Rattle.ruby_symbols.specs.declared.machine.TableSymbol.{TableSymbol};
ghost use Rattle.ruby_symbols.specs.declared.names.Named.TheVariants as named;
ghost use Rattle.ruby_symbols.specs.declared.types.FieldSymbol.{FieldSymbol};
ghost use Rattle.ruby_symbols.specs.Prelude.{stands_for};
ghost use Rattle.ruby_value.specs.declared.kind.Kind.{Kind};
ghost use Rattle.slicc_ast.specs.declared.tree.item.Tree.{Tree};
ghost use Rattle.slicc_ast.specs.declared.tree.machine.Decl.TheVariants as decl;
ghost use Rattle.slicc_ast.specs.declared.tree.machine.InPort.{InPort};
ghost use Rattle.slicc_ast.specs.declared.tree.machine.Machine.{Machine};
ghost use Rattle.slicc_ast.specs.declared.tree.machine.Object.{Object};
ghost use Rattle.slicc_ast.specs.declared.tree.machine.OutPort.{OutPort};
ghost use Rattle.slicc_ast.specs.declared.tree.machine.Parameter.{Parameter};
ghost use Rattle.rules_symbols.specs.IsAmong.{IsAmong};
ghost use Rattle.slicc_plan.specs.Prelude.{Declaration, IsAccepted, KnownType, buffer_symbol, first_named, is_named, is_sequencer, machine_declarations, machine_symbols, machines_of, object, parameter, structure_number, table_symbol, type_in, value_kind, within};
ghost use Rattle.slicc_plan.specs.MachineValues.{reference_in, value_in};
ghost use Rattle.rules_symbols.specs.Prelude.{IsNamedValue, IsPortOf};

/// A name that a machine declares stands for what the declaration makes of it: a table, a value, a reference to nothing, a buffer or
/// the sequencer. A name that it doesn't declare stands for nothing.
pub fn names_stand_for_what_is_declared()
    ensures tables { (trees : List Tree) (k : ℕ) (m : Machine) (text : List ℕ) (d : Declaration)
        (made : TableSymbol) → IsAccepted trees → slice_get (machines_of trees) k ≡ Some m
        → IsAmong (machine_declarations m) d → is_named text d ≡ true
        → table_symbol trees m d ≡ made ∷ []
        → (n : ℕ) × (stands_for (machine_symbols trees k m) text ≡ Some (named.Table n))
        × (slice_get (machine_symbols trees k m).tables n ≡ Some made) }
    ensures values { (trees : List Tree) (k : ℕ) (m : Machine) (text : List ℕ) (d : Declaration)
        (made : FieldSymbol) → IsAccepted trees → slice_get (machines_of trees) k ≡ Some m
        → IsAmong (machine_declarations m) d → is_named text d ≡ true → value_in trees m d ≡ made ∷ []
        → (n : ℕ) × (stands_for (machine_symbols trees k m) text ≡ Some (named.Value n))
        × (slice_get (machine_symbols trees k m).values n ≡ Some made) }
    ensures references { (trees : List Tree) (k : ℕ) (m : Machine) (text : List ℕ) (d : Declaration)
        (made : FieldSymbol) → IsAccepted trees → slice_get (machines_of trees) k ≡ Some m
        → IsAmong (machine_declarations m) d → is_named text d ≡ true
        → reference_in trees m d ≡ made ∷ []
        → (n : ℕ) × (stands_for (machine_symbols trees k m) text ≡ Some (named.Reference n))
        × (slice_get (machine_symbols trees k m).references n ≡ Some made) }
    ensures buffers { (trees : List Tree) (k : ℕ) (m : Machine) (text : List ℕ) (d : Declaration)
        (made : BufferSymbol) → IsAccepted trees → slice_get (machines_of trees) k ≡ Some m
        → IsAmong (machine_declarations m) d → is_named text d ≡ true
        → buffer_symbol trees k m d ≡ made ∷ []
        → (n : ℕ) × (stands_for (machine_symbols trees k m) text ≡ Some (named.Buffer n))
        × (slice_get (machine_symbols trees k m).buffers n ≡ Some made) }
    ensures sequencer { (trees : List Tree) (k : ℕ) (m : Machine) (text : List ℕ) (d : Declaration)
        → IsAccepted trees → slice_get (machines_of trees) k ≡ Some m
        → IsAmong (machine_declarations m) d → is_named text d ≡ true
        → is_sequencer trees m d ≡ true
        → stands_for (machine_symbols trees k m) text ≡ Some named.Sequencer }
    ensures nothing { (trees : List Tree) (k : ℕ) (m : Machine) (text : List ℕ) → IsAccepted trees
        → slice_get (machines_of trees) k ≡ Some m
        → first_named text (machine_declarations m) ≡ None
        → stands_for (machine_symbols trees k m) text ≡ None }
{}

/// A parameter or an object of a type of values is a value of that type's kind, or where lines have the type a reference to nothing.
pub fn parameters_have_kinds()
    ensures parameters { (trees : List Tree) (k : ℕ) (m : Machine) (p : Parameter) (t : KnownType)
        (kind : Kind) → IsAccepted trees → slice_get (machines_of trees) k ≡ Some m
        → IsAmong (machine_declarations m) (parameter p)
        → type_in trees (within m) p.kind.text ≡ Some t → value_kind trees m t ≡ Some kind
        → IsNamedValue (machine_symbols trees k m) p.name.text t kind }
    ensures objects { (trees : List Tree) (k : ℕ) (m : Machine) (o : Object) (t : KnownType)
        (kind : Kind) → IsAccepted trees → slice_get (machines_of trees) k ≡ Some m
        → IsAmong (machine_declarations m) (object o)
        → type_in trees (within m) o.kind.text ≡ Some t → value_kind trees m t ≡ Some kind
        → IsNamedValue (machine_symbols trees k m) o.name.text t kind }
{}

/// A port's name stands for a port on a buffer whose messages have the port's type.
pub fn ports_are_on_buffers()
    ensures in_ports { (trees : List Tree) (k : ℕ) (m : Machine) (p : InPort) (t : KnownType)
        → IsAccepted trees → slice_get (machines_of trees) k ≡ Some m
        → IsAmong m.declarations (decl.InPort p)
        → type_in trees (within m) p.message.text ≡ Some t
        → IsPortOf (machine_symbols trees k m) p.name.text named.InPort
        (machine_symbols trees k m).in_ports (structure_number trees t) }
    ensures out_ports { (trees : List Tree) (k : ℕ) (m : Machine) (p : OutPort) (t : KnownType)
        → IsAccepted trees → slice_get (machines_of trees) k ≡ Some m
        → IsAmong m.declarations (decl.OutPort p)
        → type_in trees (within m) p.message.text ≡ Some t
        → IsPortOf (machine_symbols trees k m) p.name.text named.OutPort
        (machine_symbols trees k m).out_ports (structure_number trees t) }
{}
