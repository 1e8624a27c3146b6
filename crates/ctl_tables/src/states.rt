// The states of lines, through the states that a scan has set.
ghost use Rattle.std.specs.Prelude.{◌≡◌, ◌==◌, ◌∷◌, IfErr, OnErr, OnOk, reverse, unwrap_or};
ghost use Rattle.std.specs.FinMap as map;
ghost use Rattle.std.specs.Map.{lookup};
ghost use Rattle.ctl_tables.specs.Stored.{default_of, log_of, state_log_of, states_now, tables_now, AreOf};

use crate::change::TableChanges;
use crate::held::Tables;
use ctl_face::Trouble;

// The state that was set last for a line. It takes no memory, and costs a step for each that was set.
fn newest_state(states: &[(u64, u16)], line: u64) -> Option<u16>
    ensures { result ≡ lookup (λ l. line == l) (reverse states.now) }
{
    for i in (0..states.len()).rev() {
        let (at, state) = states[i];
        if line == at {
            return Some(state);
        }
    }
    None
}

impl Tables {
    /// The state of a line in the built-in map, or the default state where it was never set. It takes no memory.
    #[tactic(auto, using(crate::proofs::StatesSet::state_told, crate::proofs::StatesSet::state_untold))]
    pub fn state(&self, changes: &TableChanges, line: u64) -> u16
        ensures { result ≡ unwrap_or (map.get (states_now self.now changes.now) line) (default_of self.now) }
    {
        if let Some(state) = newest_state(&changes.states, line) {
            return state;
        }
        match self.states.get(line) {
            Some(state) => *state,
            None => self.default_state,
        }
    }

    /// Sets the state of a line in the built-in map. No fault comes, and without memory nothing changes.
    pub fn set_state(
        &self,
        changes: &mut TableChanges,
        line: u64,
        state: u16,
    ) -> Result<(), Trouble>
        requires { AreOf changes.old self.now }
        ensures ok { OnOk result (states_now self.now changes.new
            ≡ map.insert (states_now self.now changes.old) line state) }
        ensures err { OnErr result (states_now self.now changes.new ≡ states_now self.now changes.old) }
        ensures memory { IfErr result (λ t. t ≡ Trouble.NoMemory) }
        ensures tables { tables_now self.now changes.new ≡ tables_now self.now changes.old }
        ensures replays { AreOf changes.new self.now }
    {
        changes.log_state(line, state)
    }
}

impl TableChanges {
    // Logs one more state. Without memory for it the log is as it was.
    #[tactic(auto, using(crate::proofs::Backwards::reverse_push))]
    fn log_state(&mut self, line: u64, state: u16) -> Result<(), Trouble>
        ensures ok { OnOk result (state_log_of self.new ≡ (line, state) ∷ state_log_of self.old) }
        ensures err { OnErr result (state_log_of self.new ≡ state_log_of self.old) }
        ensures memory { IfErr result (λ t. t ≡ Trouble.NoMemory) }
        ensures tables { log_of self.new ≡ log_of self.old }
    {
        match self.states.push((line, state)) {
            Ok(()) => Ok(()),
            Err(_) => Err(Trouble::NoMemory),
        }
    }
}
