use crate::scratch::Scratch;
use ctl_mail::MailStore;
use ctl_tables::Tables;
use ruby_value::MachineSetup;
use sequencer::Sequencer;

/// What a store is made of: what it was made for, and the parts that keep its controller.
#[derive(Drop)]
pub struct Parts {
    pub(crate) machine: MachineSetup,
    pub(crate) me: u32,
    pub(crate) tables: Tables,
    pub(crate) mail: MailStore,
    pub(crate) sequencer: Option<Sequencer>,
    pub(crate) fired: u64,
    pub(crate) stopped: bool,
    pub(crate) scratch: Option<Scratch>,
}
