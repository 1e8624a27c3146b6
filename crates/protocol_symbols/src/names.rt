//! Names, copied and found, and numbers.
ghost use Rattle.std.specs.Prelude.{◌≡◌, ◌<◌, ◌++◌, IfOk, IfSome, OnOk, length, map, position};
ghost use Rattle.std.specs.Str.{bytes_eq};

use declared_types::Named;
use ruby_base::{NoMemory, Seq, Text};
use std::alloc::Global;

/// The place of the first of this name.
pub fn place_named<T: Named>(members: &[T], name: &[u8]) -> Option<usize>
    ensures place { result ≡ position (λ m. bytes_eq (T.text m) name.now) members.now }
    ensures within { IfSome result (λ n. n < length members.now) }
{
    members.iter().position(|m| m.text() == name)
}

/// Adds the names, in their order.
pub fn add_texts<T: Named>(
    alloc: Global,
    list: &mut Seq<Text>,
    members: &[T],
) -> Result<(), NoMemory>
    ensures { OnOk result (list.new ≡ list.old ++ map T.text members.now) }
{
    for m in members {
        list.push(Text::copied(alloc, m.text())?)?;
    }
    Ok(())
}

/// The number of a declaration as symbols keep it. A text has fewer declarations than that.
pub fn in_32_bits(number: usize) -> Result<u32, NoMemory>
    ensures { IfOk result (λ kept. kept ≡ number) }
{
    if number > u32::MAX as usize {
        return Err(NoMemory);
    }
    Ok(number as u32)
}
