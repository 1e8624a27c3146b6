// The machine whose controller the calls are made on, the routes, and where it keeps the machines' numbers. There are three controllers:
// two of the first machine, and this one, the only one of the second. The third machine has none.
use built_in_acts::KeptMachines;
use controller_rows::{BufferRow, MachineRow, Network, TableRow};
use ctl_face::{BufferPlace, MachineSetup, NoMemory, Routes, TableSize};
use ruby_value::Kind;
use std::alloc::Global;

pub(crate) const ME: u32 = 2;

/// The actor number of the driver, which comes after those of the controllers.
pub(crate) const DRIVER: u32 = 3;

/// The table of its parameters.
pub(crate) const PARAMETERS: u16 = 4;

/// The buffer that is its queue.
pub(crate) const QUEUE: u16 = 0;

// The lines of the second cache have the structure of those of the TBE table.
const TBE_TABLE: TableRow = TableRow {
    size: TableSize::Tbe { entries: 1 },
    structure: 6,
    kinds: &[Kind::Int],
    first: None,
};

const MACHINE: MachineRow = MachineRow {
    tables: &[
        TableRow {
            size: TableSize::Cache { sets: 1, ways: 2 },
            structure: 4,
            ..TBE_TABLE
        },
        TableRow {
            size: TableSize::Directory,
            structure: 5,
            ..TBE_TABLE
        },
        TBE_TABLE,
        TableRow {
            size: TableSize::Cache { sets: 1, ways: 1 },
            ..TBE_TABLE
        },
        TableRow {
            size: TableSize::Parameters,
            structure: 7,
            kinds: &[
                Kind::Int,
                Kind::Int,
                Kind::Int,
                Kind::Int,
                Kind::Int,
                Kind::Int,
                Kind::Int,
            ],
            first: Some(40),
        },
    ],
    buffers: &[
        BufferRow {
            place: BufferPlace::Local,
            ordered: false,
            kinds: &[Kind::Addr],
        },
        BufferRow {
            place: BufferPlace::To {
                network: 0,
                destination: Some(0),
            },
            ordered: false,
            kinds: &[Kind::Dest],
        },
    ],
    default_state: Some(9),
    has_sequencer: true,
};

/// What the machine is to its controller.
pub(crate) fn machine(alloc: Global) -> Result<MachineSetup, NoMemory> {
    controller_rows::machine(alloc, &MACHINE)
}

/// The fields of the parameters that say which controllers each machine has, and their values: a first one's number and a count for
/// each of three machines.
pub(crate) const KEPT_NUMBERS: &[(u16, i64)] = &[(1, 0), (2, 2), (3, 2), (4, 1), (5, 0), (6, 0)];

/// Where they stand.
pub(crate) const KEPT: KeptMachines = KeptMachines {
    table: PARAMETERS,
    first: 1,
    count: 3,
};

/// The routes. Nobody takes the messages of any network.
pub(crate) fn routes(alloc: Global) -> Result<Routes, NoMemory> {
    let network = Network {
        own_path: 0,
        path: 3,
        jitter: 0,
        in_order: false,
    };
    controller_rows::routes(alloc, &network, &[&[None], &[None], &[None]])
}
