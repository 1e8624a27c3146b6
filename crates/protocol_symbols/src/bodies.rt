//! What a machine declares between its braces that has a body, and its ports.
ghost use Rattle.std.specs.Prelude.{◌≡◌, ◌++◌, [], ◌∷◌, OnOk};
ghost use Rattle.slicc_plan.specs.Prelude.{machine_declarations, port_on_buffer};
ghost use Rattle.declared_types.specs.Prelude.{declarations_of};
ghost use Rattle.protocol_symbols.specs.Parts.{AddBodies, AddBody, no_bodies};
ghost use Rattle.type_numbers.specs.Prelude.{AreNumbered, trees_of};

use crate::functions::add_function;
use crate::names::in_32_bits;
use declared_types::Declared;
use ruby_base::{NoMemory, Seq, Text};
use ruby_symbols::{ActionSymbol, BufferSymbol, FunctionSymbol, PortSymbol, buffer_among};
use slicc_ast::tree::{Decl, Machine};
use std::alloc::Global;
use type_numbers::TypeNumbers;

/// The ports of a machine, and what has a body.
#[derive(Drop)]
pub struct Bodies {
    pub in_ports: Seq<PortSymbol>,
    pub out_ports: Seq<PortSymbol>,
    pub functions: Seq<FunctionSymbol>,
    pub actions: Seq<ActionSymbol>,
}

impl Bodies {
    pub fn new(alloc: Global) -> Bodies
        ensures { result ≡ no_bodies }
    {
        Bodies {
            in_ports: Seq::new(alloc),
            out_ports: Seq::new(alloc),
            functions: Seq::new(alloc),
            actions: Seq::new(alloc),
        }
    }
}

fn add_action(
    alloc: Global,
    list: &mut Seq<ActionSymbol>,
    name: &[u8],
    number: usize,
) -> Result<(), NoMemory>
    ensures { OnOk result (list.new ≡ list.old ++ record { name = name.now; declaration = number } ∷ []) }
{
    let declaration = in_32_bits(number)?;
    list.push(ActionSymbol {
        name: Text::copied(alloc, name)?,
        declaration,
    })
}

// Adds the declaration of this number of a machine that declares this and has these buffers.
fn add_body<'a>(
    alloc: Global,
    bodies: &mut Bodies,
    types: &TypeNumbers<'a>,
    m: &'a Machine,
    declarations: &[Declared<'a>],
    buffers: &[BufferSymbol],
    number: usize,
    d: &Decl,
) -> Result<(), NoMemory>
    requires types { AreNumbered types.now }
    requires declarations { declarations_of declarations.now ≡ machine_declarations m.now }
    ensures { OnOk result (AddBody (trees_of types.now) m.now buffers.now number d.now bodies.old bodies.new) }
{
    match d {
        Decl::InPort(p) => {
            let buffer = buffer_among(buffers, &p.buffer.text);
            add_on_buffer(alloc, &mut bodies.in_ports, &p.name.text, number, buffer)?;
            Ok(())
        }
        Decl::OutPort(p) => {
            let buffer = buffer_among(buffers, &p.buffer.text);
            add_on_buffer(alloc, &mut bodies.out_ports, &p.name.text, number, buffer)?;
            Ok(())
        }
        Decl::Function(f) => {
            add_function(
                alloc,
                &mut bodies.functions,
                types,
                m,
                declarations,
                number,
                f,
            )?;
            Ok(())
        }
        Decl::Action(a) => {
            add_action(alloc, &mut bodies.actions, &a.name.text, number)?;
            Ok(())
        }
        _ => Ok(()),
    }
}

/// Adds the ports, functions and actions among these declarations of a machine that declares this and has these buffers.
pub fn add_bodies<'a>(
    alloc: Global,
    bodies: &mut Bodies,
    types: &TypeNumbers<'a>,
    m: &'a Machine,
    declarations: &[Declared<'a>],
    buffers: &[BufferSymbol],
    written: &[Decl],
) -> Result<(), NoMemory>
    requires types { AreNumbered types.now }
    requires declarations { declarations_of declarations.now ≡ machine_declarations m.now }
    ensures { OnOk result (AddBodies (trees_of types.now) m.now buffers.now written.now bodies.old bodies.new) }
{
    for (number, d) in written.iter().enumerate() {
        add_body(alloc, bodies, types, m, declarations, buffers, number, d)?;
    }
    Ok(())
}

/// Adds a port of this name and number, where it is on a buffer.
pub fn add_on_buffer(
    alloc: Global,
    list: &mut Seq<PortSymbol>,
    name: &[u8],
    number: usize,
    buffer: Option<u16>,
) -> Result<(), NoMemory>
    ensures { OnOk result (list.new ≡ list.old ++ port_on_buffer name.now number buffer) }
{
    let Some(buffer) = buffer else {
        return Ok(());
    };
    let declaration = in_32_bits(number)?;
    list.push(PortSymbol {
        name: Text::copied(alloc, name)?,
        buffer,
        declaration,
    })
}
