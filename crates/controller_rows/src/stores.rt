// A store that is made ready for scans. Whatever is done to it, its controller goes on.
ghost use Rattle.std.specs.Prelude.{◌≡◌, ◌↔◌, [], IfOk, IfSome, IsTrue};
ghost use Rattle.ruby_value.specs.Prelude.{IsRequest};
ghost use Rattle.ctl_face.specs.Prelude.{TakesFields};
ghost use Rattle.ctl_store.specs.Prelude.{ctl_of, IsSameStore};
ghost use Rattle.controller_rows.specs.Prelude.{GoesOn};

use ctl_face::{
    Fields, MachineSetup, Message, NoMemory, Parcel, Routes, has_routes, is_machine,
    opening_controllers_fit,
};
use ctl_store::Store;
use ruby_value::{Asked, have_kinds};
use std::alloc::Global;

/// The store of a controller with this actor number as a run begins, if there may be such a machine, and acts may go by the routes.
pub fn opened(
    alloc: Global,
    machine: MachineSetup,
    me: u32,
    routes: &Routes,
    now: u64,
) -> Result<Option<Store>, NoMemory>
    ensures { IfOk result (λ o. IfSome o (λ s. GoesOn s routes.now now)) }
{
    let _now = now;
    if !is_machine(&machine) || !has_routes(&machine, me, routes) {
        return Ok(None);
    }
    opening_controllers_fit();
    let store = Store::of(alloc, machine, me)?;
    Ok(Some(store))
}

// Whether no message is left.
#[tactic(auto, using(crate::proofs::Arriving::none_told))]
fn is_empty(store: &Store) -> bool
    ensures { IsTrue result → (ctl_of store.now).mail.inbox ≡ [] }
{
    let (queued, stalled, recycled) = store.census();
    if queued == 0 {
        if stalled == 0 {
            if recycled == 0 {
                return true;
            }
        }
    }
    false
}

fn takes(machine: &MachineSetup, buffer: u16, fields: &Fields) -> bool
    ensures { IsTrue result ↔ TakesFields machine.now.buffers buffer fields.now }
{
    match machine.buffers.get(usize::from(buffer)) {
        Some(s) => have_kinds(&s.kinds, fields.as_slice()),
        None => false,
    }
}

/// Whether a message of another actor could be taken in: there is no other one, there is such a buffer, which takes its fields, and
/// memory for it.
pub fn is_delivered(store: &mut Store, routes: &Routes, now: u64, m: Message) -> bool
    requires { GoesOn store.old routes.now now }
    ensures goes { GoesOn store.new routes.now now }
    ensures store { IsSameStore store.old store.new }
{
    let _routes = routes;
    let _now = now;
    if !is_empty(store)
        || store.me() == m.number.sender
        || usize::from(m.buffer) >= store.machine().buffers.len()
        || !takes(store.machine(), m.buffer, &m.fields)
    {
        return false;
    }
    if store.room(1).is_err() {
        return false;
    }
    store.arrive(Parcel::Message(m));
    true
}

/// Whether a request could be issued: the controller has a sequencer, where the line has no other request, and memory for it.
pub fn is_issued(store: &mut Store, routes: &Routes, now: u64, request: Asked) -> bool
    requires goes { GoesOn store.old routes.now now }
    requires request { IsRequest request }
    ensures goes { GoesOn store.new routes.now now }
    ensures store { IsSameStore store.old store.new }
{
    let _routes = routes;
    let _now = now;
    match store.sequencer() {
        Some(sequencer) => sequencer.issue(request).is_ok(),
        None => false,
    }
}

/// Whether there was an answer to take out of the controller's sequencer.
pub fn is_taken(store: &mut Store, routes: &Routes, now: u64) -> bool
    requires { GoesOn store.old routes.now now }
    ensures goes { GoesOn store.new routes.now now }
    ensures store { IsSameStore store.old store.new }
{
    let _routes = routes;
    let _now = now;
    match store.sequencer() {
        Some(sequencer) => sequencer.take_done().is_some(),
        None => false,
    }
}
