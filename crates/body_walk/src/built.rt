// Names, members and fields, and calls once their arguments are evaluated.
ghost use Rattle.std.specs.Prelude.{◌≡◌, [], ◌∷◌, IfOk, Ok, length};
ghost use Rattle.acts.specs.Prelude.{DoesAs, itself};
ghost use Rattle.body_meaning.specs.Prelude.{calls_within, free_call, index, method_call, named_call, permission_call, thing_built, reading, value_found, field_at, field_in, field_through, variable, variable_or, declared, named_everywhere, own_number, parameter, port_thing, thing_got};
ghost use Rattle.body_walk.specs.Prelude.{CallsDo};
ghost use Rattle.ruby_symbols.specs.Prelude.{short_number};

use acts::{BodyFault, Local, NoMemory, Ref, Trouble, Value, get, me};
use body_meaning::{
    Frame, Scope, Thing, called_on, indexed_on, line_field, message_field, permission_called,
    plain_call, port_at, thing_in, thing_of, trigger_of, with_receiver,
};
use built_in_acts::{built_in, reference};
use ruby_base::Seq;
use ruby_symbols::{MachineSymbols, Named, function_named, stands_for};
use std::alloc::Global;

#[tactic(auto, using(acts::proofs::Walk::walk_steps), unfolding(body_meaning::specs::Calls::thing_built))]
fn thing_built<T: Local>(
    alloc: Global,
    s: Scope<'_>,
    number: u16,
    on: u16,
    arguments: &[Value],
    local: &mut T,
) -> Result<Thing, Trouble>
    ensures { DoesAs itself (thing_built (reading s.entry) number on arguments.now) result
        (T.view local.old) (T.view local.new) }
{
    let v = built_in(alloc, local, s.kept, number, on, arguments)?;
    Ok(thing_of(v))
}

fn one(alloc: Global, v: Value) -> Result<Seq<Value>, NoMemory>
    ensures { IfOk result (λ vs. vs ≡ v ∷ []) }
{
    let mut values = Seq::new(alloc);
    values.push(v)?;
    Ok(values)
}

fn permission_call<T: Local>(
    alloc: Global,
    s: Scope<'_>,
    name: &[u8],
    arguments: &[Value],
    local: &T,
) -> Result<Thing, Trouble>
    ensures { DoesAs itself (permission_call (reading s.entry) name.now arguments.now) result
        (T.view local.now) (T.view local.now) }
{
    let v = permission_called(alloc, &s.symbols.machines, name, arguments)?;
    value_found(v, local)
}

#[tactic(auto, using(acts::proofs::Walk::walk_steps), unfolding(body_meaning::specs::Calls::free_call))]
fn free_call<T: Local>(
    alloc: Global,
    s: Scope<'_>,
    name: &[u8],
    arguments: &[Value],
    local: &mut T,
) -> Result<Thing, Trouble>
    ensures { DoesAs itself (free_call (reading s.entry) name.now arguments.now) result
        (T.view local.old) (T.view local.new) }
{
    if name == b"trigger".as_slice() {
        return Ok(Thing::Trigger(trigger_of(s, arguments)));
    }
    match plain_call(name) {
        Some(number) => thing_built(alloc, s, number, 0, arguments, local),
        None => permission_call(alloc, s, name, arguments, local),
    }
}

/// A call without a receiver.
#[tactic(auto, using(acts::proofs::Walk::walk_steps), unfolding(body_meaning::specs::Calls::named_call, crate::specs::CallsDo::CallsDo))]
pub fn named_call<T: Local, F: Fn(u16, Seq<Value>, &mut T) -> Result<Thing, Trouble>>(
    alloc: Global,
    s: Scope<'_>,
    depth: u16,
    calls: &F,
    name: &[u8],
    arguments: Seq<Value>,
    local: &mut T,
) -> Result<Thing, Trouble>
    requires callable { F.IsAlwaysCallable calls.now }
    requires does { CallsDo T.view F.Fn calls.now (calls_within (reading s) depth) }
    ensures { DoesAs itself (named_call (reading s.entry) (calls_within (reading s.entry) depth)
        name.now arguments) result (T.view local.old) (T.view local.new) }
{
    match function_named(s.machine, name) {
        Some(number) => calls(number, arguments, local),
        None => free_call(alloc, s, name, &arguments, local),
    }
}

/// A call on a receiver.
#[tactic(auto, using(acts::proofs::Walk::walk_steps), unfolding(body_meaning::specs::Calls::method_call))]
pub fn method_call<T: Local>(
    alloc: Global,
    s: Scope<'_>,
    receiver: Thing,
    name: &[u8],
    arguments: Seq<Value>,
    local: &mut T,
) -> Result<Thing, Trouble>
    ensures { DoesAs itself (method_call (reading s.entry) receiver name.now arguments) result
        (T.view local.old) (T.view local.new) }
{
    let Some(call) = called_on(s.machine, &receiver, name, arguments.len()) else {
        return Err(Trouble::from(BodyFault::Reference));
    };
    let all = with_receiver(receiver, arguments)?;
    thing_built(alloc, s, call.number, call.on, &all, local)
}

/// The index of a table by a key.
#[tactic(auto, using(acts::proofs::Walk::walk_steps), unfolding(body_meaning::specs::Calls::index))]
pub fn index<T: Local>(
    alloc: Global,
    s: Scope<'_>,
    receiver: &Thing,
    key: Value,
    local: &mut T,
) -> Result<Thing, Trouble>
    ensures { DoesAs itself (index (reading s.entry) receiver.now key) result (T.view local.old)
        (T.view local.new) }
{
    let Some(call) = indexed_on(s.machine, receiver) else {
        return Err(Trouble::from(BodyFault::Reference));
    };
    let keys = one(alloc, key)?;
    thing_built(alloc, s, call.number, call.on, &keys, local)
}

/// The value, which is to be there.
#[tactic(auto, using(acts::proofs::Walk::walk_steps), unfolding(body_meaning::specs::Calls::value_found))]
pub fn value_found<T: Local>(v: Option<Value>, local: &T) -> Result<Thing, Trouble>
    ensures { DoesAs itself (value_found v) result (T.view local.now) (T.view local.now) }
{
    let Some(v) = v else {
        return Err(Trouble::from(BodyFault::Reference));
    };
    Ok(Thing::Value(v))
}

#[tactic(auto, using(acts::proofs::Walk::walk_steps), unfolding(body_meaning::specs::Names::thing_got))]
fn thing_got<T: Local>(r: &Ref, field: u16, local: &T) -> Result<Thing, Trouble>
    ensures { DoesAs itself (thing_got r.now field) result (T.view local.now) (T.view local.now) }
{
    let v = get(local, r, field)?;
    Ok(Thing::Value(v))
}

// The number of the table that has the machine's parameters.
fn parameters_table(m: &MachineSymbols) -> Option<u16>
    ensures { result ≡ short_number (length m.now.tables) }
{
    let n = m.tables.len();
    if n < 65536 { Some(n as u16) } else { None }
}

#[tactic(auto, using(acts::proofs::Walk::walk_steps), unfolding(body_meaning::specs::Names::parameter))]
fn parameter<T: Local>(m: &MachineSymbols, field: u16, local: &T) -> Result<Thing, Trouble>
    ensures { DoesAs itself (parameter m.now field) result (T.view local.now) (T.view local.now) }
{
    let Some(table) = parameters_table(m) else {
        return Err(Trouble::from(BodyFault::Reference));
    };
    thing_got(&Ref { table, line: 0 }, field, local)
}

#[tactic(auto, using(acts::proofs::Walk::walk_steps), unfolding(body_meaning::specs::Names::port_thing))]
fn port_thing<T: Local>(buffer: Option<u16>, local: &T) -> Result<Thing, Trouble>
    ensures { DoesAs itself (port_thing buffer) result (T.view local.now) (T.view local.now) }
{
    let Some(buffer) = buffer else {
        return Err(Trouble::from(BodyFault::Reference));
    };
    Ok(Thing::Port(buffer))
}

#[tactic(auto, using(acts::proofs::Walk::walk_steps), unfolding(body_meaning::specs::Names::own_number))]
fn own_number<T: Local>(local: &T) -> Thing
    ensures { DoesAs itself own_number (Ok result) (T.view local.now) (T.view local.now) }
{
    Thing::Value(Value::Machine(me(local)))
}

fn named_everywhere<T: Local>(name: &[u8], local: &T) -> Result<Thing, Trouble>
    ensures { DoesAs itself (named_everywhere name.now) result (T.view local.now) (T.view local.now) }
{
    if name == b"machineID".as_slice() {
        return Ok(own_number(local));
    }
    if name == b"recycle_latency".as_slice() {
        return Ok(Thing::Value(Value::Int(10)));
    }
    Err(Trouble::from(BodyFault::Reference))
}

#[tactic(auto, using(acts::proofs::Walk::walk_steps), unfolding(body_meaning::specs::Names::declared))]
fn declared<T: Local>(m: &MachineSymbols, name: &[u8], local: &T) -> Result<Thing, Trouble>
    ensures { DoesAs itself (declared m.now name.now) result (T.view local.now) (T.view local.now) }
{
    match stands_for(m, name) {
        None => named_everywhere(name, local),
        Some(Named::Table(table)) => Ok(Thing::Table(table)),
        Some(Named::Value(field)) => parameter(m, field, local),
        Some(Named::Reference(_)) => Ok(Thing::Value(Value::Entry(None))),
        Some(Named::Buffer(_)) => Err(Trouble::from(BodyFault::Reference)),
        Some(Named::InPort(number)) => port_thing(port_at(&m.in_ports, number), local),
        Some(Named::OutPort(number)) => port_thing(port_at(&m.out_ports, number), local),
        Some(Named::Sequencer) => Ok(Thing::Sequencer),
    }
}

/// What a name is in a body.
#[tactic(auto, using(acts::proofs::Walk::walk_steps), unfolding(body_meaning::specs::Expressions::variable))]
pub fn variable<T: Local>(
    s: Scope<'_>,
    frame: &Frame,
    name: &[u8],
    local: &T,
) -> Result<Thing, Trouble>
    ensures { DoesAs itself (variable (reading s.entry) frame.now name.now) result (T.view local.now)
        (T.view local.now) }
{
    match thing_in(s, frame, name)? {
        Some(t) => Ok(t),
        None => declared(s.machine, name, local),
    }
}

#[tactic(auto, using(acts::proofs::Walk::walk_steps), unfolding(body_meaning::specs::Expressions::field_at))]
fn field_at<T: Local>(s: Scope<'_>, name: &[u8], r: &Ref, local: &T) -> Result<Thing, Trouble>
    ensures { DoesAs itself (field_at (reading s.entry) name.now r.now) result (T.view local.now)
        (T.view local.now) }
{
    let Some(field) = line_field(s, r.table, name) else {
        return Err(Trouble::from(BodyFault::Reference));
    };
    thing_got(r, field, local)
}

#[tactic(auto, using(acts::proofs::Walk::walk_steps), unfolding(body_meaning::specs::Expressions::field_through))]
fn field_through<T: Local>(
    s: Scope<'_>,
    v: &Value,
    name: &[u8],
    local: &T,
) -> Result<Thing, Trouble>
    ensures { DoesAs itself (field_through (reading s.entry) v.now name.now) result (T.view local.now)
        (T.view local.now) }
{
    let Some(r) = reference(v) else {
        return Err(Trouble::from(BodyFault::Reference));
    };
    field_at(s, name, &r, local)
}

/// The field of this name of a thing.
pub fn field_in<T: Local>(s: Scope<'_>, name: &[u8], t: &Thing, local: &T) -> Result<Thing, Trouble>
    ensures { DoesAs itself (field_in (reading s.entry) name.now t.now) result (T.view local.now)
        (T.view local.now) }
{
    match t {
        Thing::Value(v) => field_through(s, v, name, local),
        Thing::Message(structure, fields) => {
            let v = message_field(s, *structure, fields, name)?;
            value_found(v, local)
        }
        _ => Err(Trouble::from(BodyFault::Reference)),
    }
}
