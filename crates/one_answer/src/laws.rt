// What the record of a run says of every other run of its setting. This function does nothing: its contract is the law.
ghost use Rattle.std.specs.Prelude.{◌≡◌};
ghost use Rattle.cycle_order.specs.Prelude.{ordered};
ghost use Rattle.one_answer.specs.Prelude.{IsOneAnswer};
ghost use Rattle.protocol_meaning.specs.Prelude.{IsWholeRunBy, rules_in, setting_in};
ghost use Rattle.protocol_meaning.specs.declared.record.RunRecord.{RunRecord};
ghost use Rattle.protocol_runs.specs.Prelude.{IsAlone, IsSetting};

use schedule_laws::ended_runs_answer_alike;
use sequencer::Driver;

/// The record of a whole run has the answers of every ended run of its setting, and in cycle order its journal is that of a run which
/// worker 0 makes alone. Where the record's own run is one of worker 0 alone, its journal is in cycle order as it is.
pub fn records_are_one_answer<D: Driver>()
    ensures one { (driver : D) (r : RunRecord) → IsSetting D.least (setting_in D.drive driver r)
        → IsWholeRunBy D.drive driver r → IsOneAnswer D.drive driver r }
    ensures alone { (driver : D) (r : RunRecord) → IsSetting D.least (setting_in D.drive driver r)
        → IsWholeRunBy D.drive driver r → IsAlone (rules_in D.drive driver r) r.history
        → ordered r.journal ≡ r.journal }
{
    ended_runs_answer_alike::<D>();
}
