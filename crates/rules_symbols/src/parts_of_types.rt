// Members of enumerations and fields of structures, by their names in bodies.
ghost use Rattle.std.specs.Prelude.{◌≡◌, ℕ, true, Some, List, slice_get};
ghost use Rattle.ruby_symbols.specs.declared.types.EnumerationSymbol.{EnumerationSymbol};
ghost use Rattle.ruby_symbols.specs.declared.types.StructureSymbol.{StructureSymbol};
ghost use Rattle.ruby_symbols.specs.Prelude.{enumeration_named, member_named};
ghost use Rattle.ruby_value.specs.declared.kind.Kind.TheVariants as kind;
ghost use Rattle.slicc_ast.specs.declared.tree.item.Tree.{Tree};
ghost use Rattle.slicc_ast.specs.declared.tree.machine.Machine.{Machine};
ghost use Rattle.slicc_plan.specs.Prelude.{IsAccepted, KnownType, enumeration_members, is_among, machines_of, structure_number, symbols_of, type_in, value_kind, within};
ghost use Rattle.rules_symbols.specs.Prelude.{HasFieldsOf};

use slicc_plan::types_have_numbers;

/// A member of an enumeration that has a name in a machine is a member of the symbol that the name finds there, and a value of the
/// kind of the type.
pub fn members_have_numbers()
    ensures { (trees : List Tree) (k : ℕ) (m : Machine) (text called : List ℕ) (t : KnownType)
        (members : List (List ℕ)) → IsAccepted trees → slice_get (machines_of trees) k ≡ Some m
        → type_in trees (within m) text ≡ Some t → enumeration_members trees t ≡ Some members
        → is_among members called ≡ true
        → (n : ℕ) × (e : EnumerationSymbol) × (j : ℕ)
        × (enumeration_named (symbols_of trees) k text ≡ Some n)
        × (slice_get (symbols_of trees).enumerations n ≡ Some e) × (member_named e called ≡ Some j)
        × (value_kind trees m t ≡ Some (kind.Enum n e.default)) }
{
    types_have_numbers();
}

/// Under the number of a structure or of a type of messages that has a name in a machine stands a symbol with its fields: what a body
/// finds under a field's name has the kind of the field of that name.
pub fn fields_have_kinds()
    ensures { (trees : List Tree) (k : ℕ) (m : Machine) (text : List ℕ) (t : KnownType) (n : ℕ)
        → IsAccepted trees → slice_get (machines_of trees) k ≡ Some m
        → type_in trees (within m) text ≡ Some t → structure_number trees t ≡ Some n
        → (s : StructureSymbol) × (slice_get (symbols_of trees).structures n ≡ Some s)
        × HasFieldsOf trees m t s }
{
    types_have_numbers();
}
