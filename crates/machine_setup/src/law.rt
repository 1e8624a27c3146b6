//! What a machine is to its controllers is lawful.
ghost use Rattle.std.specs.Prelude.{◌≡◌, ℕ, List, Some, slice_get};
ghost use Rattle.ctl_face.specs.Prelude.{IsMachine};
ghost use Rattle.ruby_value.specs.declared.setup.MachineSetup.{MachineSetup};
ghost use Rattle.ruby_value.specs.declared.setup.Sizes.{Sizes};
ghost use Rattle.slicc_ast.specs.declared.tree.item.Tree.{Tree};
ghost use Rattle.slicc_plan.specs.Prelude.{IsAccepted, AreSizesOf, setup_of};

use slicc_plan::{
    initial_fields_have_their_kinds, network_has_one_type, networks_are_numbered,
    no_field_is_a_reference, parameters_are_last, receivers_are_sets, setup_has_its_parts,
    tables_have_room,
};

/// In an accepted protocol, with sizes that a topology may set, what a machine is to its controllers is a machine's setup: its
/// tables have room within the limits and begin with fields of their kinds, its networks are numbered, no field is a reference,
/// and the messages on one network are alike.
pub fn setup_is_machine()
    ensures { (trees : List Tree) (number : ℕ) (sizes : Sizes) (setup : MachineSetup) → IsAccepted trees
        → AreSizesOf trees sizes → setup_of trees number sizes ≡ Some setup → IsMachine setup }
{
    setup_has_its_parts();
    initial_fields_have_their_kinds();
    no_field_is_a_reference();
    receivers_are_sets();
    tables_have_room();
    parameters_are_last();
    network_has_one_type();
    networks_are_numbered();
}
