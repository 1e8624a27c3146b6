//! The table of a machine.
ghost use Rattle.std.specs.Prelude.{◌≤◌, ◌^◌};

use ruby_base::Seq;
use slicc_plan::Row;

/// The rows of a machine, at the places of their pairs.
#[derive(Drop)]
pub struct Table {
    pub(crate) events: usize,
    pub(crate) rows: Seq<Option<Row>>,
    ghost few: { events ≤ 2 ^ 16 },
}
