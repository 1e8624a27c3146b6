ghost use Rattle.std.specs.Prelude.{◌≡◌, map, find, []};
ghost use Rattle.std.specs.Option.{option_map};
ghost use Rattle.std.specs.Str.{bytes_eq};
ghost use Rattle.slicc_plan.specs.BuiltIn.{built_in_type};
ghost use Rattle.slicc_plan.specs.Prelude.{NamedType as NamedRecord, built_in_types, is_same_type, is_table_nature, nature_of, request_fields, is_among, members_of, message_sizes, permissions, request_types, Call as CallRecord, calls};
ghost use Rattle.declared_types.specs.Types.{as_nature, meaning_in, named_of, texts_of};
ghost use Rattle.std.specs.List.{list_any};

use slicc_plan::BuiltInType;

/// A name and the type that it stands for or has.
#[derive(Clone, Copy)]
pub struct NamedType {
    pub name: &'static str,
    pub meaning: BuiltInType,
}

macro_rules! named {
    ($($name:literal $meaning:ident;)*) => {
        [$(NamedType {
            name: $name,
            meaning: BuiltInType::$meaning,
        }),*]
    };
}

const TYPES: [NamedType; 20] = named! {
    "int" Int;
    "Cycles" Cycles;
    "Tick" Tick;
    "bool" Bool;
    "Addr" Address;
    "MachineID" MachineId;
    "MachineType" MachineType;
    "NetDest" NetDest;
    "DataBlock" DataBlock;
    "AccessPermission" AccessPermission;
    "RubyRequestType" RequestType;
    "MessageSizeType" MessageSize;
    "RubyRequest" Request;
    "AbstractCacheEntry" AbstractEntry;
    "void" Void;
    "CacheMemory" Cache;
    "DirectoryMemory" Directory;
    "TBETable" TbeTable;
    "Sequencer" Sequencer;
    "MessageBuffer" Buffer;
};

const REQUEST_FIELDS: [NamedType; 4] = named! {
    "LineAddress" Address;
    "PhysicalAddress" Address;
    "Type" RequestType;
    "Size" Int;
};

// The meaning of a name among these.
fn meaning_among(types: &[NamedType], text: &[u8]) -> Option<BuiltInType>
    ensures { result ≡ meaning_in (map named_of types.now) text.now }
{
    for t in types {
        if t.name.as_bytes() == text {
            return Some(t.meaning);
        }
    }
    None
}

/// The built-in type of a name, where there is one.
pub fn built_in_type(text: &[u8]) -> Option<BuiltInType>
    ensures { result ≡ built_in_type text.now }
{
    meaning_among(&TYPES, text)
}

/// The fields of the structure of what a processor asks for, in order.
pub fn request_fields() -> &'static [NamedType]
    ensures { map named_of result.now ≡ request_fields }
{
    &REQUEST_FIELDS
}

/// What kind of thing a type's values are.
#[derive(Clone, Copy, PartialEq, Eq)]
pub enum Nature {
    /// Signed numbers of 64 bits.
    Number,
    Boolean,
    Address,
    /// The members of the enumeration.
    Enumeration,
    /// Values of other types that fields and locals may have.
    OtherValue,
    Structure,
    Table,
    Nothing,
}

/// What kind of thing a built-in type's values are.
pub fn nature_of(b: BuiltInType) -> Nature
    ensures { as_nature result ≡ nature_of b }
{
    match b {
        BuiltInType::Int | BuiltInType::Cycles | BuiltInType::Tick => Nature::Number,
        BuiltInType::Bool => Nature::Boolean,
        BuiltInType::Address => Nature::Address,
        BuiltInType::MachineType
        | BuiltInType::AccessPermission
        | BuiltInType::RequestType
        | BuiltInType::MessageSize => Nature::Enumeration,
        BuiltInType::MachineId | BuiltInType::NetDest | BuiltInType::DataBlock => {
            Nature::OtherValue
        }
        BuiltInType::Request | BuiltInType::AbstractEntry => Nature::Structure,
        BuiltInType::Cache
        | BuiltInType::Directory
        | BuiltInType::TbeTable
        | BuiltInType::Sequencer
        | BuiltInType::Buffer => Nature::Table,
        BuiltInType::Void => Nature::Nothing,
    }
}

/// Whether a built-in type is that of tables.
pub fn is_table(b: BuiltInType) -> bool
    ensures { result ≡ is_table_nature (nature_of b) }
{
    matches!(
        b,
        BuiltInType::Cache
            | BuiltInType::Directory
            | BuiltInType::TbeTable
            | BuiltInType::Sequencer
            | BuiltInType::Buffer
    )
}

const PERMISSIONS: [&str; 7] = [
    "Read_Only",
    "Read_Write",
    "Invalid",
    "NotPresent",
    "Busy",
    "Maybe_Stale",
    "Backing_Store",
];

const REQUEST_TYPES: [&str; 7] = [
    "LD",
    "ST",
    "IFETCH",
    "ATOMIC",
    "Load_Linked",
    "Store_Conditional",
    "FLUSH",
];

const MESSAGE_SIZES: [&str; 13] = [
    "Undefined",
    "Control",
    "Data",
    "Request_Control",
    "Response_Control",
    "Response_Data",
    "Writeback_Control",
    "Writeback_Data",
    "Forwarded_Control",
    "Invalidate_Control",
    "Unblock_Control",
    "Multicast_Control",
    "Broadcast_Control",
];

/// The members of a built-in enumeration but that of machines, in order; none of another type.
pub fn fixed_members(b: BuiltInType) -> &'static [&'static str]
    ensures { texts_of result.now ≡ members_of [] b }
{
    match b {
        BuiltInType::AccessPermission => &PERMISSIONS,
        BuiltInType::RequestType => &REQUEST_TYPES,
        BuiltInType::MessageSize => &MESSAGE_SIZES,
        _ => &[],
    }
}
