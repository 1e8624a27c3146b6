// What a scan does to a controller's tables: each act is logged in its changes.
ghost use Rattle.std.specs.Prelude.{◌≡◌, ◌<◌, ◌∷◌, IfErr, IfOk, IfSome, OnErr, OnOk, length, slice_set};
ghost use Rattle.ctl_tables.specs.Logged.{DoesIn};
ghost use Rattle.ctl_tables.specs.Stored.{log_of, state_log_of, states_now, tables_now, AreOf};
ghost use Rattle.ctl_tables.specs.TableActs.{fields_at, set_in};
ghost use Rattle.ctl_tables.specs.declared.change.TableChange.{TableChange};

use crate::change::{Edit, TableChange, TableChanges};
use crate::held::Tables;
use crate::ways::Way;
use ctl_face::Trouble;
use ruby_value::{Fault, Fields, NoMemory, Ref, Value};

impl TableChanges {
    // Logs one more change. Without memory for it the log is as it was.
    #[inline(always)]
    pub(crate) fn log(&mut self, table: u16, line: u64, edit: Edit) -> Result<(), Trouble>
        ensures ok { OnOk result (log_of self.new ≡ record { table = table; line = line; edit = edit } ∷ log_of self.old) }
        ensures err { OnErr result (log_of self.new ≡ log_of self.old) }
        ensures memory { IfErr result (λ t. t ≡ Trouble.NoMemory) }
        ensures states { state_log_of self.new ≡ state_log_of self.old }
    {
        match self.log.push(TableChange { table, line, edit }) {
            Ok(()) => Ok(()),
            Err(_) => Err(Trouble::NoMemory),
        }
    }
}

// The fields with one of them written.
fn with_field(fields: &Fields, field: u16, v: Value) -> Result<Fields, NoMemory>
    ensures { IfOk result (λ f. f ≡ slice_set fields.now field v) }
{
    let mut changed = fields.clone()?;
    changed.write(field, v);
    Ok(changed)
}

impl Tables {
    /// Writes a field of the line that a reference names, which has that field where it is there. The fault `Reference` comes
    /// exactly where the table is there and the line isn't; where no table is there nothing changes.
    pub fn set(
        &self,
        changes: &mut TableChanges,
        r: &Ref,
        field: u16,
        v: Value,
    ) -> Result<(), Trouble>
        requires replays { AreOf changes.old self.now }
        requires within { IfSome (fields_at (tables_now self.now changes.old) r.now.table r.now.line) (λ fields. field < length fields) }
        ensures does { DoesIn (set_in (tables_now self.now changes.old) r.now field v) result
            (tables_now self.now changes.old) (tables_now self.now changes.new) }
        ensures states { states_now self.now changes.new ≡ states_now self.now changes.old }
        ensures replays { AreOf changes.new self.now }
    {
        match self.way(changes, r.table, r.line) {
            Way::Nowhere => Ok(()),
            Way::Absent => Err(Trouble::Fault(Fault::Reference)),
            Way::Kept => changes.log(r.table, r.line, Edit::Write(field, v)),
            Way::Unwritten(fields) => match with_field(fields, field, v) {
                Ok(whole) => changes.log(r.table, r.line, Edit::Fill(whole)),
                Err(_) => Err(Trouble::NoMemory),
            },
        }
    }
}
