//! Programs of machines with other tables: which references are to entries and which to TBEs.
use crate::row::{Around, Row, Step, Wanted};
use action_code::{TableDecl, TableSort};
use ruby_value::Kind;

macro_rules! table {
    ($sort:expr, $structure:expr) => {
        TableDecl {
            sort: $sort,
            structure: $structure,
        }
    };
}

const NO_TABLES: &[TableDecl] = &[];

const DIRECTORY: &[TableDecl] = &[table!(TableSort::Directory, 0)];

const PARAMETERS: &[TableDecl] = &[table!(TableSort::Parameters, 0)];

const NO_DIRECTORY: &[TableDecl] = &[
    table!(TableSort::Cache, 0),
    table!(TableSort::Tbe, 1),
    table!(TableSort::Parameters, 3),
];

const NO_CACHE: &[TableDecl] = &[table!(TableSort::Directory, 1), table!(TableSort::Tbe, 1)];

const TBES: &[TableDecl] = &[table!(TableSort::Tbe, 1)];

const ONE_STRUCTURE: &[TableDecl] = &[table!(TableSort::Cache, 0), table!(TableSort::Tbe, 0)];

const TWO_CACHES: &[TableDecl] = &[table!(TableSort::Cache, 0), table!(TableSort::Cache, 2)];

const CACHE_AND_DIRECTORY: &[TableDecl] = &[
    table!(TableSort::Cache, 0),
    table!(TableSort::Directory, 2),
];

const CACHE_WITHOUT_TYPE: &[TableDecl] = &[table!(TableSort::Cache, 65535)];

const CACHE_WITHOUT_TYPES: &[TableDecl] = &[
    table!(TableSort::Cache, 65535),
    table!(TableSort::Tbe, 65535),
];

const DIRECTORY_WITHOUT_TYPES: &[TableDecl] = &[
    table!(TableSort::Directory, 65535),
    table!(TableSort::Tbe, 65535),
];

/// Programs of machines with other tables.
pub const TABLES: &[Row] = &[
    Row {
        shows: "a line of the directory is no entry",
        around: Around::Tables(DIRECTORY, &[]),
        steps: &[
            Step::Addr(0),
            Step::Addr(0),
            Step::Op(12, 0),
            Step::Tbe(65535),
            Step::Trigger(0),
        ],
        wanted: Wanted::Broken(2, 0, 4, &[Kind::Addr, Kind::Entry(0), Kind::Tbe(65535)]),
    },
    Row {
        shows: "parameters are no entry",
        around: Around::Tables(PARAMETERS, &[]),
        steps: &[
            Step::Addr(0),
            Step::Entry(0),
            Step::Tbe(65535),
            Step::Trigger(0),
        ],
        wanted: Wanted::Broken(2, 0, 3, &[Kind::Addr, Kind::Entry(0), Kind::Tbe(65535)]),
    },
    Row {
        shows: "a permission of parameters where there is no directory",
        around: Around::Tables(NO_DIRECTORY, &[]),
        steps: &[
            Step::EntryAt(2, 0),
            Step::Enum(1, 0),
            Step::Op(54, 0),
            Step::Ret,
        ],
        wanted: Wanted::Broken(2, 0, 2, &[Kind::Entry(3), Kind::Enum(1, 0)]),
    },
    Row {
        shows: "a TBE may be a line of a directory that is not there",
        around: Around::Tables(NO_DIRECTORY, &[]),
        steps: &[Step::Tbe(1), Step::Enum(1, 0), Step::Op(54, 0), Step::Ret],
        wanted: Wanted::Accepted,
    },
    Row {
        shows: "a TBE that is a line of the directory is no entry",
        around: Around::Tables(NO_CACHE, &[]),
        steps: &[Step::Addr(0), Step::Tbe(1), Step::Tbe(1), Step::Trigger(0)],
        wanted: Wanted::Broken(2, 0, 3, &[Kind::Addr, Kind::Tbe(1), Kind::Tbe(1)]),
    },
    Row {
        shows: "a TBE that is a line of the directory",
        around: Around::Tables(NO_CACHE, &[]),
        steps: &[
            Step::Addr(0),
            Step::Entry(65535),
            Step::Addr(0),
            Step::Op(12, 0),
            Step::Trigger(0),
        ],
        wanted: Wanted::Accepted,
    },
    Row {
        shows: "an entry is no TBE where a table tells",
        around: Around::Tables(TBES, &[]),
        steps: &[
            Step::Addr(0),
            Step::Entry(65535),
            Step::Entry(1),
            Step::Trigger(0),
        ],
        wanted: Wanted::Broken(2, 0, 3, &[Kind::Addr, Kind::Entry(65535), Kind::Entry(1)]),
    },
    Row {
        shows: "a TBE may be an entry of a cache that is not there",
        around: Around::Tables(TBES, &[]),
        steps: &[Step::Addr(0), Step::Tbe(1), Step::Tbe(1), Step::Trigger(0)],
        wanted: Wanted::Accepted,
    },
    Row {
        shows: "a line of one structure is an entry and a TBE",
        around: Around::Tables(ONE_STRUCTURE, &[]),
        steps: &[
            Step::Addr(0),
            Step::Addr(0),
            Step::Op(4, 0),
            Step::Addr(0),
            Step::Op(16, 1),
            Step::Trigger(0),
        ],
        wanted: Wanted::Accepted,
    },
    Row {
        shows: "a type that is both has a reference of the kind of TBEs",
        around: Around::Tables(NO_TABLES, &[Kind::Tbe(7)]),
        steps: &[
            Step::Addr(0),
            Step::Load(0),
            Step::Load(0),
            Step::Trigger(0),
        ],
        wanted: Wanted::Accepted,
    },
    Row {
        shows: "a type that is both has a reference of the kind of entries",
        around: Around::Tables(NO_TABLES, &[Kind::Entry(7)]),
        steps: &[
            Step::Addr(0),
            Step::Load(0),
            Step::Load(0),
            Step::Trigger(0),
        ],
        wanted: Wanted::Accepted,
    },
    Row {
        shows: "a line of the first cache",
        around: Around::Tables(TWO_CACHES, &[]),
        steps: &[
            Step::Addr(0),
            Step::Entry(0),
            Step::Tbe(65535),
            Step::Trigger(0),
        ],
        wanted: Wanted::Accepted,
    },
    Row {
        shows: "a line of the second cache",
        around: Around::Tables(TWO_CACHES, &[]),
        steps: &[
            Step::Addr(0),
            Step::Entry(2),
            Step::Tbe(65535),
            Step::Trigger(0),
        ],
        wanted: Wanted::Accepted,
    },
    Row {
        shows: "a line of neither cache",
        around: Around::Tables(TWO_CACHES, &[]),
        steps: &[
            Step::Addr(0),
            Step::Entry(1),
            Step::Tbe(65535),
            Step::Trigger(0),
        ],
        wanted: Wanted::Broken(2, 0, 3, &[Kind::Addr, Kind::Entry(1), Kind::Tbe(65535)]),
    },
    Row {
        shows: "a use of a line of a directory",
        around: Around::Tables(CACHE_AND_DIRECTORY, &[]),
        steps: &[Step::Entry(0), Step::Op(11, 1), Step::Ret],
        wanted: Wanted::Broken(5, 0, 1, &[Kind::Entry(0)]),
    },
    Row {
        shows: "an entry of a type that is not there is no TBE",
        around: Around::Tables(CACHE_WITHOUT_TYPE, &[]),
        steps: &[
            Step::Addr(0),
            Step::Entry(65535),
            Step::Entry(65535),
            Step::Trigger(0),
        ],
        wanted: Wanted::Broken(
            2,
            0,
            3,
            &[Kind::Addr, Kind::Entry(65535), Kind::Entry(65535)],
        ),
    },
    Row {
        shows: "a use of a line of a type that is not there",
        around: Around::Tables(CACHE_WITHOUT_TYPES, &[]),
        steps: &[Step::Entry(65535), Step::Op(11, 0), Step::Ret],
        wanted: Wanted::Accepted,
    },
    Row {
        shows: "a use of a line by a TBE of a type that is not there",
        around: Around::Tables(CACHE_WITHOUT_TYPES, &[]),
        steps: &[Step::Tbe(65535), Step::Op(11, 0), Step::Ret],
        wanted: Wanted::Broken(2, 0, 1, &[Kind::Tbe(65535)]),
    },
    Row {
        shows: "lines of two types that are not there",
        around: Around::Tables(CACHE_WITHOUT_TYPES, &[]),
        steps: &[Step::EntryAt(0, 0), Step::TbeAt(1, 0), Step::Eq, Step::Ret],
        wanted: Wanted::Broken(2, 0, 2, &[Kind::Entry(65535), Kind::Tbe(65535)]),
    },
    Row {
        shows: "a line of a directory of a type that is not there",
        around: Around::Tables(DIRECTORY_WITHOUT_TYPES, &[]),
        steps: &[
            Step::Addr(0),
            Step::Op(12, 0),
            Step::Entry(65535),
            Step::Eq,
            Step::Ret,
        ],
        wanted: Wanted::Accepted,
    },
];
