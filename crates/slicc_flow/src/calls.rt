//! The built-in calls that change something, by their names.
ghost use Rattle.std.specs.Prelude.{◌≡◌};
ghost use Rattle.std.specs.List.{list_any};
ghost use Rattle.std.specs.Option.{option_copied};
ghost use Rattle.std.specs.Str.{bytes_eq};
ghost use Rattle.slicc_plan.specs.Prelude.{changes_more, free_changes, is_one_of, table_changes, value_changes};

use crate::names::Names;

// Calls without a receiver that change more than a local.
const FREE_CHANGES: [&str; 4] = [
    "set_cache_entry",
    "unset_cache_entry",
    "set_tbe",
    "unset_tbe",
];

// Calls with a receiver that change more than a local. A name is there for each sort of receiver.
const TABLE_CHANGES: [&str; 6] = [
    "allocate",
    "deallocate",
    "setMRU",
    "allocate",
    "deallocate",
    "writeCallback",
];

// Calls that change their receiver.
const VALUE_CHANGES: [&str; 7] = [
    "add",
    "remove",
    "clear",
    "addNetDest",
    "removeNetDest",
    "broadcast",
    "clear",
];

fn is_one_of(word: &[u8], texts: &[&str]) -> bool
    ensures { result ≡ list_any (λ text. bytes_eq word.now text.now) texts.now }
{
    texts.iter().any(|text| word == text.as_bytes())
}

/// Whether a call of this name, which no function of the machine has, changes more than a local.
pub fn is_free_change(name: &[u8]) -> bool
    ensures { result ≡ is_one_of free_changes name.now }
{
    is_one_of(name, &FREE_CHANGES)
}

fn is_table_change(name: &[u8]) -> bool
    ensures { result ≡ is_one_of table_changes name.now }
{
    is_one_of(name, &TABLE_CHANGES)
}

fn is_value_change(name: &[u8]) -> bool
    ensures { result ≡ is_one_of value_changes name.now }
{
    is_one_of(name, &VALUE_CHANGES)
}

/// Whether a call of this name changes more than a local, on a receiver that is this name, or that is none.
pub fn is_change(names: &Names, receiver: Option<&[u8]>, name: &[u8]) -> bool
    ensures { result ≡ changes_more names.now (option_copied receiver.entry) name.now }
{
    if is_value_change(name) {
        receiver.is_none()
    } else if is_table_change(name) {
        !names.is_directory(receiver)
    } else {
        false
    }
}
