//! The enumerations and structures of a protocol.
ghost use Rattle.std.specs.Prelude.{◌≡◌, ◌++◌, [], ◌∷◌, All, IfOk, None, OnOk, flat_map, map};
ghost use Rattle.slicc_plan.specs.Prelude.{members_of, built_in_symbols, enumeration_symbol, enumeration_symbols, owner, field_symbols, request_symbol, structure_symbol, structure_symbols, ScopedDeclaration};
ghost use Rattle.declared_types.specs.Prelude.{scope_of};
ghost use Rattle.type_numbers.specs.Prelude.{AreNumbered, HasFewMembers, NamesFewMembers, scoped_of, trees_of};
ghost use Rattle.ruby_value.specs.Prelude.{default_value};

use crate::names::{add_texts, place_named};
use declared_types::{Declared, Named, Scope, fixed_members};
use ruby_base::{NoMemory, Seq, Text};
use ruby_symbols::{EnumerationSymbol, FieldSymbol, StructureSymbol};
use ruby_value::{Kind, default_of};
use slicc_ast::tree::Structure;
use slicc_plan::BuiltInType;
use std::alloc::Global;
use type_numbers::{Scoped, TypeNumbers, kept, own_default, structure_fields};

/// The number of the machine that a declaration is made in, if it is made in one.
pub fn owner(types: &TypeNumbers<'_>, scope: Scope<'_>) -> Option<u16>
    requires { AreNumbered types.now }
    ensures { result ≡ owner (trees_of types.now) (scope_of scope.entry) }
{
    match scope {
        Scope::Everywhere => None,
        Scope::Within(m) => kept(place_named(&types.machines, &m.name.text)),
    }
}

// Adds an enumeration with these members.
fn add_members<T: Named>(
    alloc: Global,
    list: &mut Seq<EnumerationSymbol>,
    name: &[u8],
    machine: Option<u16>,
    default: u16,
    members: &[T],
) -> Result<(), NoMemory>
    ensures { OnOk result (list.new ≡ list.old ++ record { name = name.now; machine = machine; members = map T.text members.now; default = default } ∷ []) }
{
    let name = Text::copied(alloc, name)?;
    let mut texts = Seq::new(alloc);
    add_texts(alloc, &mut texts, members)?;
    list.push(EnumerationSymbol {
        name,
        machine,
        members: texts,
        default,
    })
}

fn add_fixed(
    alloc: Global,
    list: &mut Seq<EnumerationSymbol>,
    name: &[u8],
    b: BuiltInType,
) -> Result<(), NoMemory>
    ensures { OnOk result (list.new ≡ list.old ++ record { name = name.now; machine = None; members = members_of [] b; default = 0 } ∷ []) }
{
    add_members(alloc, list, name, None, 0, fixed_members(b))
}

fn add_enumeration<'a>(
    alloc: Global,
    list: &mut Seq<EnumerationSymbol>,
    types: &TypeNumbers<'a>,
    d: &Scoped<'a>,
) -> Result<(), NoMemory>
    requires types { AreNumbered types.now }
    requires members { HasFewMembers (scoped_of d.now).declaration }
    ensures { OnOk result (list.new ≡ list.old ++ enumeration_symbol (trees_of types.now) (scoped_of d.now)) }
{
    let machine = owner(types, d.scope);
    let default = own_default(d.scope, d.declaration);
    match d.declaration {
        Declared::Enumeration(e) => {
            add_members(alloc, list, &e.name.text, machine, default, &e.members)
        },
        Declared::States(s) => {
            add_members(alloc, list, &s.name.text, machine, default, &s.members)
        },
        _ => Ok(()),
    }
}

fn add_enumerations<'a>(
    alloc: Global,
    list: &mut Seq<EnumerationSymbol>,
    types: &TypeNumbers<'a>,
    declared: &[Scoped<'a>],
) -> Result<(), NoMemory>
    requires types { AreNumbered types.now }
    requires members { All (λ (d : ScopedDeclaration). HasFewMembers d.declaration) (map scoped_of declared.now) }
    ensures { OnOk result (list.new ≡ list.old ++ flat_map (enumeration_symbol (trees_of types.now)) (map scoped_of declared.now)) }
{
    for d in declared {
        add_enumeration(alloc, list, types, d)?;
    }
    Ok(())
}

fn add_built_ins(
    alloc: Global,
    list: &mut Seq<EnumerationSymbol>,
    types: &TypeNumbers<'_>,
) -> Result<(), NoMemory>
    requires { AreNumbered types.now }
    ensures { OnOk result (list.new ≡ list.old ++ built_in_symbols (trees_of types.now)) }
{
    add_members(alloc, list, b"MachineType", None, 0, &types.machines)?;
    add_fixed(
        alloc,
        list,
        b"AccessPermission",
        BuiltInType::AccessPermission,
    )?;
    add_fixed(alloc, list, b"RubyRequestType", BuiltInType::RequestType)?;
    add_fixed(alloc, list, b"MessageSizeType", BuiltInType::MessageSize)
}

/// Adds the enumerations of a protocol, by their numbers.
pub fn add_all_enumerations(
    alloc: Global,
    list: &mut Seq<EnumerationSymbol>,
    types: &TypeNumbers<'_>,
) -> Result<(), NoMemory>
    requires { AreNumbered types.now }
    ensures { OnOk result (list.new ≡ list.old ++ enumeration_symbols (trees_of types.now)) }
{
    add_built_ins(alloc, list, types)?;
    add_enumerations(alloc, list, types, &types.enumerations)
}

fn structure_of<'a>(
    alloc: Global,
    types: &TypeNumbers<'a>,
    scope: Scope<'a>,
    s: &'a Structure,
) -> Result<StructureSymbol, NoMemory>
    requires types { AreNumbered types.now }
    requires scope { NamesFewMembers (trees_of types.now) (scope_of scope) }
    ensures { IfOk result (λ r. r ≡ record { name = s.now.name.text; machine = owner (trees_of types.now) (scope_of scope.entry); fields = field_symbols (trees_of types.now) (scope_of scope.entry) s.now }) }
{
    let machine = owner(types, scope);
    let name = Text::copied(alloc, &s.name.text)?;
    let fields = structure_fields(alloc, types, scope, s)?;
    Ok(StructureSymbol {
        name,
        machine,
        fields,
    })
}

fn add_structure<'a>(
    alloc: Global,
    list: &mut Seq<StructureSymbol>,
    types: &TypeNumbers<'a>,
    d: &Scoped<'a>,
) -> Result<(), NoMemory>
    requires types { AreNumbered types.now }
    requires scope { NamesFewMembers (trees_of types.now) (scoped_of d.now).scope }
    ensures { OnOk result (list.new ≡ list.old ++ structure_symbol (trees_of types.now) (scoped_of d.now)) }
{
    match d.declaration {
        Declared::Structure(s) => list.push(structure_of(alloc, types, d.scope, s)?),
        _ => Ok(()),
    }
}

fn add_structures<'a>(
    alloc: Global,
    list: &mut Seq<StructureSymbol>,
    types: &TypeNumbers<'a>,
    declared: &[Scoped<'a>],
) -> Result<(), NoMemory>
    requires types { AreNumbered types.now }
    requires scopes { All (λ (d : ScopedDeclaration). NamesFewMembers (trees_of types.now) d.scope) (map scoped_of declared.now) }
    ensures { OnOk result (list.new ≡ list.old ++ flat_map (structure_symbol (trees_of types.now)) (map scoped_of declared.now)) }
{
    for d in declared {
        add_structure(alloc, list, types, d)?;
    }
    Ok(())
}

/// Adds a field of this name and kind, which begins as the default of its kind.
pub fn add_default_field(
    alloc: Global,
    fields: &mut Seq<FieldSymbol>,
    name: &[u8],
    kind: Kind,
) -> Result<(), NoMemory>
    ensures { OnOk result (fields.new ≡ fields.old ++ record { name = name.now; kind = kind; initial = default_value kind } ∷ []) }
{
    let name = Text::copied(alloc, name)?;
    let initial = default_of(alloc, &kind)?;
    fields.push(FieldSymbol {
        name,
        kind,
        initial,
    })
}

fn add_request_fields(alloc: Global, fields: &mut Seq<FieldSymbol>) -> Result<(), NoMemory>
    ensures { OnOk result (fields.new ≡ fields.old ++ request_symbol.fields) }
{
    add_default_field(alloc, fields, b"LineAddress", Kind::Addr)?;
    add_default_field(alloc, fields, b"PhysicalAddress", Kind::Addr)?;
    add_default_field(alloc, fields, b"Type", Kind::Enum(2, 0))?;
    add_default_field(alloc, fields, b"Size", Kind::Int)
}

fn request(alloc: Global) -> Result<StructureSymbol, NoMemory>
    ensures { IfOk result (λ s. s ≡ request_symbol) }
{
    let name = Text::copied(alloc, b"RubyRequest")?;
    let mut fields = Seq::new(alloc);
    add_request_fields(alloc, &mut fields)?;
    Ok(StructureSymbol {
        name,
        machine: None,
        fields,
    })
}

/// Adds the structures of a protocol, by their numbers.
pub fn add_all_structures(
    alloc: Global,
    list: &mut Seq<StructureSymbol>,
    types: &TypeNumbers<'_>,
) -> Result<(), NoMemory>
    requires { AreNumbered types.now }
    ensures { OnOk result (list.new ≡ list.old ++ structure_symbols (trees_of types.now)) }
{
    add_structures(alloc, list, types, &types.structures)?;
    list.push(request(alloc)?)
}
