// The numbers of the built-in calls by their names.
ghost use Rattle.std.specs.Prelude.{◌≡◌, map};
ghost use Rattle.body_meaning.specs.Prelude.{block_call, cache_call, callback, changes_receiver, directory_call, entry_call, index_call, plain_call, port_call, read_callback, sequencer_call, set_call, table_call, tbe_call, write_callback, number_among};

use ruby_symbols::TableSort;

// The name of a call, and its number.
type NamedCall = (&'static str, u16);

const ON_CACHES: [NamedCall; 9] = [
    ("lookup", 4),
    ("isTagPresent", 6),
    ("cacheAvail", 7),
    ("cacheProbe", 8),
    ("allocate", 9),
    ("deallocate", 10),
    ("setMRU", 11),
    ("profileDemandHit", 56),
    ("profileDemandMiss", 57),
];

const ON_DIRECTORIES: [NamedCall; 3] = [("lookup", 12), ("isPresent", 14), ("allocate", 15)];

const ON_TBE_TABLES: [NamedCall; 4] = [
    ("lookup", 16),
    ("allocate", 18),
    ("deallocate", 19),
    ("isPresent", 20),
];

const ON_SETS: [NamedCall; 9] = [
    ("add", 21),
    ("remove", 22),
    ("clear", 23),
    ("count", 24),
    ("isElement", 25),
    ("isEmpty", 26),
    ("addNetDest", 27),
    ("removeNetDest", 28),
    ("broadcast", 29),
];

const WITHOUT_RECEIVER: [NamedCall; 11] = [
    ("clockEdge", 37),
    ("curCycle", 38),
    ("cyclesToTicks", 39),
    ("ticksToCycles", 40),
    ("mapAddressToMachine", 41),
    ("makeLineAddress", 42),
    ("machineIDToNodeID", 43),
    ("machineIDToMachineType", 44),
    ("wakeUpBuffers", 49),
    ("wakeUpAllBuffers", 50),
    ("profileMsgDelay", 53),
];

// The number of the first of these calls that has this name.
fn number_among(name: &[u8], calls: &[NamedCall]) -> Option<u16>
    ensures { result ≡ number_among (map (λ row. (row.0.now, row.1)) calls.now) name.now }
{
    let [row, others @ ..] = calls else {
        return None;
    };
    if name == row.0.as_bytes() {
        return Some(row.1);
    }
    number_among(name, others)
}

/// The number of the call of this name on a port, written with this many arguments.
pub(crate) fn port_call(name: &[u8], count: usize) -> Option<u16>
    ensures { result ≡ port_call name.now count }
{
    if name == b"isReady".as_slice() {
        return Some(0);
    }
    if name == b"dequeue".as_slice() {
        return Some(1);
    }
    if name == b"recycle".as_slice() {
        if count == 1 {
            return Some(2);
        }
        return Some(3);
    }
    None
}

fn cache_call(name: &[u8]) -> Option<u16>
    ensures { result ≡ cache_call name.now }
{
    number_among(name, &ON_CACHES)
}

fn directory_call(name: &[u8]) -> Option<u16>
    ensures { result ≡ directory_call name.now }
{
    number_among(name, &ON_DIRECTORIES)
}

fn tbe_call(name: &[u8]) -> Option<u16>
    ensures { result ≡ tbe_call name.now }
{
    number_among(name, &ON_TBE_TABLES)
}

/// The number of the call of this name on a table of lines.
pub(crate) fn table_call(sort: TableSort, name: &[u8]) -> Option<u16>
    ensures { result ≡ table_call sort name.now }
{
    match sort {
        TableSort::Cache => cache_call(name),
        TableSort::Directory => directory_call(name),
        TableSort::Tbe { .. } => tbe_call(name),
    }
}

/// The number of the index of a table of lines by an address.
pub(crate) fn index_call(sort: TableSort) -> u16
    ensures { result ≡ index_call sort }
{
    match sort {
        TableSort::Cache => 5,
        TableSort::Directory => 13,
        TableSort::Tbe { .. } => 17,
    }
}

/// The number of the call of this name on a set of controllers.
pub(crate) fn set_call(name: &[u8]) -> Option<u16>
    ensures { result ≡ set_call name.now }
{
    number_among(name, &ON_SETS)
}

/// The number of the call of this name on a block.
pub(crate) fn block_call(name: &[u8]) -> Option<u16>
    ensures { result ≡ block_call name.now }
{
    if name == b"clear".as_slice() {
        return Some(30);
    }
    None
}

/// Whether calls of this name change their receiver, which is a set of controllers or a block.
pub fn changes_receiver(name: &[u8]) -> bool
    ensures { result ≡ changes_receiver name.now }
{
    name == b"add".as_slice()
        || name == b"remove".as_slice()
        || name == b"clear".as_slice()
        || name == b"addNetDest".as_slice()
        || name == b"removeNetDest".as_slice()
        || name == b"broadcast".as_slice()
}

fn callback(two: u16, three: u16, four: u16, count: usize) -> u16
    ensures { result ≡ callback two three four count }
{
    if count == 2 {
        return two;
    }
    if count == 3 {
        return three;
    }
    four
}

/// The number of `writeCallback` with this many arguments.
pub fn write_callback(count: usize) -> u16
    ensures { result ≡ write_callback count }
{
    callback(34, 35, 36, count)
}

fn read_callback(count: usize) -> u16
    ensures { result ≡ read_callback count }
{
    callback(31, 32, 33, count)
}

/// The number of the call of this name on a sequencer, written with this many arguments.
pub(crate) fn sequencer_call(name: &[u8], count: usize) -> Option<u16>
    ensures { result ≡ sequencer_call name.now count }
{
    if name == b"readCallback".as_slice() {
        return Some(read_callback(count));
    }
    if name == b"writeCallback".as_slice() {
        return Some(write_callback(count));
    }
    if name == b"evictionCallback".as_slice() {
        return Some(55);
    }
    None
}

/// The number of the call of this name on a reference to a line.
pub(crate) fn entry_call(name: &[u8]) -> Option<u16>
    ensures { result ≡ entry_call name.now }
{
    if name == b"changePermission".as_slice() {
        return Some(54);
    }
    None
}

/// The number of the call of this name without a receiver.
pub fn plain_call(name: &[u8]) -> Option<u16>
    ensures { result ≡ plain_call name.now }
{
    number_among(name, &WITHOUT_RECEIVER)
}
