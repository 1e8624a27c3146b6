use crate::stored::StoredTable;
use ruby_value::LineMap;

/// The tables of a controller by their numbers, and the states of the lines whose state was set. A contract sees its list of
/// tables by `tables_of` and its map of states by `states_of`, and beside them not how much room its containers have.
#[derive(Drop)]
pub struct Tables {
    pub(crate) tables: Vec<StoredTable>,
    pub(crate) states: LineMap<u16>,
    pub(crate) default_state: u16,
}
