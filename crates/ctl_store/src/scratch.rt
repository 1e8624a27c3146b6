use crate::changes::Changes;
use ctl_mail::MailChanges;
use ctl_tables::TableChanges;
use ruby_value::NoMemory;
use sequencer::Callbacks;
use std::alloc::Global;

/// The lists in which a scan keeps what it changes, with the room that earlier scans have made in them, so that a scan need not make
/// it again. What is left in them doesn't matter: a scan begins by dropping it. They have a place on the heap, so that a draft and
/// what is sealed of it are moved by their address.
#[derive(Drop)]
pub struct Scratch {
    pub(crate) changes: Box<Changes>,
}

impl Scratch {
    /// Lists without room, or there is no memory for their place.
    pub fn new(alloc: Global) -> Result<Scratch, NoMemory> {
        let changes = Changes {
            tables: TableChanges::new(alloc),
            mail: MailChanges::new(alloc),
            calls: Callbacks::new(alloc),
            alloc,
        };
        Ok(Scratch {
            changes: Box::new(alloc, changes)?,
        })
    }
}
