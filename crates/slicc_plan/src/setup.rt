//! What is known of what a machine of a protocol is to its controllers.
ghost use Rattle.std.specs.Prelude.{◌≡◌, ◌≤◌, ◌==◌, ◌+◌, ℕ, All, IfSome, IsTrue, List, Some, false, length, slice_get};
ghost use Rattle.ruby_value.specs.Prelude.{has_kinds, is_reference, network_of};
ghost use Rattle.ruby_value.specs.declared.kind.Kind.{Kind};
ghost use Rattle.ruby_value.specs.declared.setup.BufferSetup.{BufferSetup};
ghost use Rattle.ruby_value.specs.declared.setup.Sizes.{Sizes};
ghost use Rattle.ruby_value.specs.declared.setup.TableSetup.{TableSetup};
ghost use Rattle.slicc_ast.specs.declared.tree.item.Tree.{Tree};
ghost use Rattle.slicc_ast.specs.declared.tree.machine.Machine.{Machine};
ghost use Rattle.slicc_plan.specs.Prelude.{IsAccepted, buffers_of, machines_of, AreSizesOf, HasTypeOf, NamesReceivers, is_parameters, setup_in, tables_of};
ghost use Rattle.slicc_plan.specs.Setups.{HasRoom};

/// A machine has its tables and that of its parameters, and its buffers.
pub fn setup_has_its_parts()
    ensures tables { (trees : List Tree) (number : ℕ) (sizes : Sizes) (m : Machine)
        → length (setup_in trees number sizes m).tables ≡ length (tables_of trees m) + 1 }
    ensures buffers { (trees : List Tree) (number : ℕ) (sizes : Sizes) (m : Machine)
        → length (setup_in trees number sizes m).buffers ≡ length (buffers_of trees m) }
{}

/// The fields that a line has from the start are of the kinds that its table's lines have.
pub fn initial_fields_have_their_kinds()
    ensures { (trees : List Tree) (number : ℕ) (sizes : Sizes) (m : Machine)
        → All (λ (s : TableSetup). IsTrue (has_kinds s.kinds s.initial)) (setup_in trees number sizes m).tables }
{}

/// No field of a line, no value of a machine and no field of a message is a reference.
pub fn no_field_is_a_reference()
    ensures tables { (trees : List Tree) (number : ℕ) (sizes : Sizes) (m : Machine)
        → All (λ (s : TableSetup). All (λ (k : Kind). is_reference k ≡ false) s.kinds) (setup_in trees number sizes m).tables }
    ensures buffers { (trees : List Tree) (number : ℕ) (sizes : Sizes) (m : Machine)
        → All (λ (b : BufferSetup). All (λ (k : Kind). is_reference k ≡ false) b.kinds)
        (setup_in trees number sizes m).buffers }
{}

/// The field of a message that names its receivers is a set of controllers.
pub fn receivers_are_sets()
    ensures { (trees : List Tree) (number : ℕ) (sizes : Sizes) (m : Machine)
        → All (λ (b : BufferSetup). NamesReceivers b) (setup_in trees number sizes m).buffers }
{}

/// In an accepted protocol, with sizes that a topology may set, each table has room for a line, and for no more than the
/// limits.
pub fn tables_have_room()
    ensures { (trees : List Tree) (number : ℕ) (sizes : Sizes) (m : Machine) → IsAccepted trees
        → AreSizesOf trees sizes → slice_get (machines_of trees) number ≡ Some m
        → All (λ (s : TableSetup). HasRoom s.size) (setup_in trees number sizes m).tables }
{}

/// The table of its values is a machine's last one, and no other is of that sort.
pub fn parameters_are_last()
    ensures { (trees : List Tree) (number : ℕ) (sizes : Sizes) (m : Machine) (table : ℕ)
        → IfSome (slice_get (setup_in trees number sizes m).tables table)
        (λ (s : TableSetup). is_parameters s.size ≡ (table + 1 == length (setup_in trees number sizes m).tables)) }
{}

/// The buffers on one virtual network, whatever machines they are of, carry messages of one type.
pub fn network_has_one_type()
    ensures { (trees : List Tree) (number : ℕ) (sizes : Sizes) (m : Machine)
        → All (λ (b : BufferSetup). HasTypeOf trees b) (setup_in trees number sizes m).buffers }
{}

/// In an accepted protocol the virtual networks of buffers are those from 0 to 15.
pub fn networks_are_numbered()
    ensures { (trees : List Tree) (number : ℕ) (sizes : Sizes) (m : Machine) → IsAccepted trees
        → slice_get (machines_of trees) number ≡ Some m
        → All (λ (b : BufferSetup). IfSome (network_of b.place) (λ n. n ≤ 15)) (setup_in trees number sizes m).buffers }
{}
