ghost use Rattle.std.specs.Prelude.{◌≡◌};
ghost use Rattle.ruby_value.specs.Prelude.{is_store, stored_block, IsRequest};

use crate::{Ask, Asked, Block};

/// Whether the request is to write.
pub(crate) fn is_store(kind: Ask) -> bool
    ensures { result ≡ is_store kind }
{
    matches!(kind, Ask::Store)
}

/// The block with the byte of a store in it.
pub(crate) fn stored_block(asked: &Asked, block: &Block) -> Block
    requires { IsRequest asked.now }
    ensures { result ≡ stored_block asked.now block.now }
{
    let mut stored = *block;
    stored.bytes[usize::from(asked.offset)] = asked.byte;
    stored
}
