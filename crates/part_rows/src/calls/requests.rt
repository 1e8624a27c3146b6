// The requests that are outstanding.
ghost use Rattle.ruby_value.specs.Prelude.{IsRequest};

use ruby_value::{Ask, Asked};

/// A load of line 1.
pub(crate) fn load() -> Asked
    ensures { IsRequest result }
{
    Asked {
        line: 1,
        kind: Ask::Load,
        offset: 4,
        size: 4,
        byte: 0,
        issued: 9,
    }
}

/// A store of the byte 171 at offset 5 of line 2.
pub(crate) fn store() -> Asked
    ensures { IsRequest result }
{
    Asked {
        line: 2,
        kind: Ask::Store,
        offset: 5,
        size: 1,
        byte: 171,
        issued: 9,
    }
}
