//! The parameters and objects of a machine: its buffers, what has references as its values, and all together.
ghost use Rattle.std.specs.Prelude.{◌≡◌, OnOk, map, ◌++◌, ◌∷◌, [], IfOk, Some, option_and_then, slice_get};
ghost use Rattle.std.specs.Option.{option_copied, option_map};
ghost use Rattle.slicc_plan.specs.Prelude.{machine_declarations, machines_of, within, bad_object_attributes, bad_values_of, type_in, all_ports, reference_of_type, attributes_of, buffer_of_place, buffer_symbol, structure_number};
ghost use Rattle.declared_types.specs.Prelude.{declaration_of, declarations_of, type_of};
ghost use Rattle.machine_table.specs.Prelude.{place_seen, port_seen, buffer_seen};
ghost use Rattle.type_numbers.specs.Prelude.{AreNumbered, IsOnNetwork, trees_of};
ghost use Rattle.protocol_symbols.specs.Parts.{AddNamed, AddObject, AddObjects, no_objects};

use crate::lines::line_kind;
use crate::tables::add_table;
use crate::types::add_default_field;
use crate::values::add_value;
use declared_types::{Declared, KnownType, Scope, type_in};
use machine_table::{BufferIn, PortOn, buffer_in};
use ruby_base::{NoMemory, Seq, Text};
use ruby_symbols::{BufferSymbol, FieldSymbol, TableSymbol};
use slicc_ast::tree::{Literal, Machine, Pairs, TypeName};
use std::alloc::Global;
use type_numbers::{TypeNumbers, buffer_place, is_ordered, message_type, type_number};

/// The parameters and objects of a machine, by what they are.
#[derive(Drop)]
pub struct Objects {
    pub tables: Seq<TableSymbol>,
    pub values: Seq<FieldSymbol>,
    pub references: Seq<FieldSymbol>,
    pub buffers: Seq<BufferSymbol>,
}

impl Objects {
    pub fn new(alloc: Global) -> Objects
        ensures { result ≡ no_objects }
    {
        Objects {
            tables: Seq::new(alloc),
            values: Seq::new(alloc),
            references: Seq::new(alloc),
            buffers: Seq::new(alloc),
        }
    }
}

// Adds a parameter or an object, but for a buffer.
fn add_named<'a>(
    alloc: Global,
    objects: &mut Objects,
    types: &TypeNumbers<'a>,
    m: &'a Machine,
    declarations: &[Declared<'a>],
    name: &[u8],
    kind: &TypeName,
    pairs: &Pairs,
    literal: Option<&Literal>,
) -> Result<(), NoMemory>
    requires types { AreNumbered types.now }
    requires declarations { declarations_of declarations.now ≡ machine_declarations m.now }
    requires attributes { bad_object_attributes (type_in (trees_of types.now) (within m.now) kind.now.text) pairs.now ≡ [] }
    ensures { OnOk result (AddNamed (trees_of types.now) m.now name.now kind.now.text pairs.now (option_copied literal.entry) objects.old objects.new) }
{
    let t = type_in(&types.scopes, Scope::Within(m), &kind.text);
    add_table(
        alloc,
        &mut objects.tables,
        types,
        m,
        declarations,
        name,
        t,
        pairs,
    )?;
    add_value(alloc, &mut objects.values, types, name, t, literal)?;
    add_reference(
        alloc,
        &mut objects.references,
        types,
        m,
        declarations,
        name,
        t,
    )
}

// Adds what a declaration of the machine of this number declares, if it is a parameter or an object.
fn add_object<'a>(
    alloc: Global,
    objects: &mut Objects,
    types: &TypeNumbers<'a>,
    ports: &[PortOn<'a>],
    number: u16,
    m: &'a Machine,
    declarations: &[Declared<'a>],
    d: Declared<'a>,
) -> Result<(), NoMemory>
    requires types { AreNumbered types.now }
    requires ports { map port_seen ports.now ≡ all_ports (trees_of types.now) }
    requires declarations { declarations_of declarations.now ≡ machine_declarations m.now }
    requires values { bad_values_of (trees_of types.now) (within m.now) (declaration_of d) ≡ [] }
    ensures { OnOk result (AddObject (trees_of types.now) number m.now (declaration_of d.entry) objects.old objects.new) }
{
    add_buffer(alloc, &mut objects.buffers, types, ports, number, m, d)?;
    match d {
        Declared::Parameter(p) => {
            let literal = p.literal.as_ref();
            add_named(
                alloc,
                objects,
                types,
                m,
                declarations,
                &p.name.text,
                &p.kind,
                &p.pairs,
                literal,
            )?;
            Ok(())
        }
        Declared::Object(o) => {
            add_named(
                alloc,
                objects,
                types,
                m,
                declarations,
                &o.name.text,
                &o.kind,
                &o.pairs,
                None,
            )?;
            Ok(())
        }
        _ => Ok(()),
    }
}

/// Adds the parameters and objects of the machine of this number, which declares this, where these are the ports of all machines.
pub fn add_objects<'a>(
    alloc: Global,
    objects: &mut Objects,
    types: &TypeNumbers<'a>,
    ports: &[PortOn<'a>],
    number: u16,
    m: &'a Machine,
    declarations: &[Declared<'a>],
) -> Result<(), NoMemory>
    requires types { AreNumbered types.now }
    requires ports { map port_seen ports.now ≡ all_ports (trees_of types.now) }
    requires declarations { declarations_of declarations.now ≡ machine_declarations m.now }
    requires machine { slice_get (machines_of (trees_of types.now)) number ≡ Some m.now }
    ensures { OnOk result (AddObjects (trees_of types.now) number m.now (declarations_of declarations.now) objects.old objects.new) }
{
    for d in declarations {
        add_object(alloc, objects, types, ports, number, m, declarations, *d)?;
    }
    Ok(())
}

/// Adds a parameter or an object of this name and type, if its values are references to lines of a machine that declares this.
pub fn add_reference<'a>(
    alloc: Global,
    list: &mut Seq<FieldSymbol>,
    types: &TypeNumbers<'a>,
    m: &'a Machine,
    declarations: &[Declared<'a>],
    name: &[u8],
    t: Option<KnownType<'a>>,
) -> Result<(), NoMemory>
    requires types { AreNumbered types.now }
    requires declarations { declarations_of declarations.now ≡ machine_declarations m.now }
    ensures { OnOk result (list.new ≡ list.old ++ reference_of_type (trees_of types.now) m.now name.now (option_map type_of t.entry)) }
{
    match line_kind(types, m, declarations, t) {
        None => Ok(()),
        Some(kind) => add_default_field(alloc, list, name, kind),
    }
}

fn message_number<'a>(types: &TypeNumbers<'a>, t: Option<KnownType<'a>>) -> Option<u16>
    requires { AreNumbered types.now }
    ensures { result ≡ option_and_then (structure_number (trees_of types.now)) (option_map type_of t.entry) }
{
    match t {
        None => None,
        Some(t) => type_number(types, t),
    }
}

fn buffer_of_place<'a>(
    alloc: Global,
    types: &TypeNumbers<'a>,
    ports: &[PortOn<'a>],
    number: u16,
    d: Declared<'a>,
    b: BufferIn<'a>,
) -> Result<BufferSymbol, NoMemory>
    requires types { AreNumbered types.now }
    requires ports { map port_seen ports.now ≡ all_ports (trees_of types.now) }
    requires place { IsOnNetwork (place_seen b.place) }
    ensures { IfOk result (λ s. s ∷ [] ≡ buffer_of_place (trees_of types.now) number (attributes_of (declaration_of d.entry)) (Some (buffer_seen b.entry))) }
{
    let t = message_type(ports, number, b);
    let place = buffer_place(types, b.place, t);
    let message = message_number(types, t);
    Ok(BufferSymbol {
        name: Text::copied(alloc, &b.name.text)?,
        place,
        ordered: is_ordered(d),
        message,
    })
}

/// Adds the buffer that a declaration of the machine of this number declares, if it does, where these are the ports of all
/// machines.
pub fn add_buffer<'a>(
    alloc: Global,
    list: &mut Seq<BufferSymbol>,
    types: &TypeNumbers<'a>,
    ports: &[PortOn<'a>],
    number: u16,
    m: &'a Machine,
    d: Declared<'a>,
) -> Result<(), NoMemory>
    requires types { AreNumbered types.now }
    requires ports { map port_seen ports.now ≡ all_ports (trees_of types.now) }
    requires values { bad_values_of (trees_of types.now) (within m.now) (declaration_of d) ≡ [] }
    ensures { OnOk result (list.new ≡ list.old ++ buffer_symbol (trees_of types.now) number m.now (declaration_of d.entry)) }
{
    match buffer_in(&types.scopes, m, d) {
        None => Ok(()),
        Some(b) => list.push(buffer_of_place(alloc, types, ports, number, d, b)?),
    }
}
