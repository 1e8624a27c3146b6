// Where the controllers of a machine keep the numbers of all machines' controllers.
ghost use Rattle.std.specs.Prelude.{◌≡◌, ◌≤◌, length};
ghost use Rattle.slicc_plan.specs.Prelude.{HasNumbers};
ghost use Rattle.protocol_meaning.specs.Prelude.{kept_machines};

use built_in_acts::KeptMachines;
use ruby_symbols::{MachineSymbols, Symbols};

pub(crate) fn kept_machines(symbols: &Symbols, m: &MachineSymbols) -> KeptMachines
    requires numbers { HasNumbers m.now }
    requires machines { length symbols.now.machines ≤ 16 }
    ensures { result ≡ kept_machines (length symbols.now.machines) m.now }
{
    KeptMachines {
        table: m.tables.len() as u16,
        first: m.values.len() as u8,
        count: symbols.machines.len() as u8,
    }
}
