ghost use Rattle.std.specs.Prelude.{◌≡◌, ◌≤◌, ◌+◌, ℕ, IfOk, OnOk, length, map, unwrap_or, vec_len};
ghost use Rattle.std.specs.List.{All};
ghost use Rattle.ruby_value.specs.declared.setup.TableSetup.{TableSetup};
ghost use Rattle.ctl_face.specs.Prelude.{HasPlaces, IsMachine, opening_ctl, opening_table};
ghost use Rattle.ruby_value.specs.Prelude.{with_all};
ghost use Rattle.ctl_tables.specs.declared.change.TableChanges.{TableChanges};
ghost use Rattle.ctl_tables.specs.After.{after_changes, with_change};
ghost use Rattle.ctl_tables.specs.Container.{table_of, HasRoom};
ghost use Rattle.ctl_tables.specs.Stored.{default_of, states_now, states_of, tables_now, tables_of, AreOf, HasRoomFor};

use crate::change::{Edit, TableChange, TableChanges};
use crate::held::Tables;
use crate::stored::StoredTable;
use ruby_value::{LineMap, MachineSetup, NoMemory, TableSetup};
use std::alloc::Global;

impl Tables {
    /// The tables of a machine as a run begins, and no states. A line whose state was never set has the machine's default state,
    /// or state 0 where it has none.
    pub fn new(alloc: Global, machine: &MachineSetup) -> Result<Tables, NoMemory>
        requires { IsMachine machine.now }
        ensures tables { IfOk result (λ s. tables_of s ≡ (opening_ctl machine.now).tables) }
        ensures states { IfOk result (λ s. states_of s ≡ (opening_ctl machine.now).states) }
        ensures default { IfOk result (λ s. default_of s ≡ unwrap_or machine.now.default_state 0) }
    {
        let tables = open_all(alloc, &machine.tables)?;
        Ok(Tables {
            tables,
            states: LineMap::new(alloc),
            default_state: machine.default_state.unwrap_or(0),
        })
    }

    /// Forgets what the changes are, so that they are none of these tables yet. It takes no memory, and the room that they have
    /// stays.
    pub fn begin(&self, changes: &mut TableChanges)
        ensures replays { AreOf changes.new self.now }
        ensures tables { tables_now self.now changes.new ≡ tables_of self.now }
        ensures states { states_now self.now changes.new ≡ states_of self.now }
    {
        changes.clear();
    }

    /// Makes room for changes, or answers that there is no memory for them. Tables and states stay as they are.
    pub fn reserve(&mut self, changes: &TableChanges) -> Result<(), NoMemory>
        ensures tables { tables_of self.new ≡ tables_of self.old }
        ensures states { states_of self.new ≡ states_of self.old }
        ensures default { default_of self.new ≡ default_of self.old }
        ensures room { OnOk result (HasRoomFor changes.now self.new) }
        ensures kept { (others : TableChanges) → HasRoomFor others self.old → HasRoomFor others self.new }
    {
        reserve_all(&mut self.tables, changes.log.len())?;
        self.states.reserve(changes.states.len())?;
        Ok(())
    }

    /// Makes changes for which there is room, of which none is left. It takes no memory.
    pub fn apply(&mut self, changes: &mut TableChanges)
        requires { HasRoomFor changes.old self.old }
        ensures tables { tables_of self.new ≡ tables_now self.old changes.old }
        ensures states { states_of self.new ≡ states_now self.old changes.old }
        ensures default { default_of self.new ≡ default_of self.old }
    {
        changes.log.reverse();
        changes.states.reverse();
        change_all(&mut self.tables, &mut changes.log);
        put_all(&mut self.states, &mut changes.states);
    }
}

// The tables of a machine's setup as a run begins.
fn open_all(alloc: Global, setups: &[TableSetup]) -> Result<Vec<StoredTable>, NoMemory>
    requires { All (λ (s : TableSetup). HasPlaces s.size) setups.now }
    ensures { IfOk result (λ ts. map table_of ts.items
        ≡ map (λ (s : TableSetup). opening_table s.size s.initial) setups.now) }
{
    let mut tables = Vec::with_capacity(alloc, setups.len())?;
    for setup in setups {
        tables.push(StoredTable::opening(alloc, setup)?)?;
    }
    Ok(tables)
}

// Makes room for so many more lines in each of the tables.

#[tactic(auto, using(crate::proofs::Replaying::same_tables))]
fn reserve_all(tables: &mut [StoredTable], more: usize) -> Result<(), NoMemory>
    ensures same { map table_of tables.new ≡ map table_of tables.old }
    ensures ok { OnOk result (All (HasRoom more) tables.new) }
    ensures no_less { (n : ℕ) → All (HasRoom n) tables.old → All (HasRoom n) tables.new }
    ensures count { length tables.new ≡ length tables.old }
{
    for i in 0..tables.len() {
        tables[i].reserve(more)?;
    }
    Ok(())
}

// Makes one change, where its table is there.
fn change_one(tables: &mut [StoredTable], table: u16, line: u64, edit: Edit)
    requires { All (HasRoom 1) tables.old }
    ensures after { map table_of tables.new
        ≡ with_change (record { table = table; line = line; edit = edit }) (map table_of tables.old) }
    ensures room { (n : ℕ) → All (HasRoom (n + 1)) tables.old → All (HasRoom n) tables.new }
{
    let at = usize::from(table);
    if at < tables.len() {
        tables[at].edit(line, edit);
    }
}

// Makes changes that stand with the newest first, from the last one on.
fn change_all(tables: &mut [StoredTable], newest_first: &mut Vec<TableChange>)
    requires { All (HasRoom (vec_len newest_first.old)) tables.old }
    ensures { map table_of tables.new ≡ after_changes newest_first.old.items (map table_of tables.old) }
{
    while let Some(change) = newest_first.pop() {
        change_one(tables, change.table, change.line, change.edit);
    }
}

// Keeps states under their lines one after another, from the last one on, where there is room.
fn put_all(states: &mut LineMap<u16>, newest_first: &mut Vec<(u64, u16)>)
    requires { vec_len newest_first.old ≤ states.old.room }
    ensures { states.new.kept ≡ with_all states.old.kept newest_first.old.items }
{
    while let Some((line, state)) = newest_first.pop() {
        let _before = states.put(line, state);
    }
}
