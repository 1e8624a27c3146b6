// Acts on a controller's requests, each done where the machine serves it.
ghost use Rattle.acts.specs.Prelude.{ReadBack, WriteBack, act, DoesAs, itself};

use crate::serving::{is_line, not_served};
use ctl_face::{Block, Local, Trouble};

/// Does `ReadBack`: finishes a load or a fetch of a line.
pub fn read_back<T: Local>(local: &mut T, line: u64, block: &Block) -> Result<(), Trouble>
    ensures { DoesAs itself (act (ReadBack line block.now)) result (T.view local.old) (T.view local.new) }
{
    if !is_line(line) {
        return Err(not_served());
    }
    local.read_back(line, block)
}

/// Does `WriteBack`: finishes a store to a line, and answers the block with its byte.
pub fn write_back<T: Local>(local: &mut T, line: u64, block: Block) -> Result<Block, Trouble>
    ensures { DoesAs itself (act (WriteBack line block)) result (T.view local.old) (T.view local.new) }
{
    if !is_line(line) {
        return Err(not_served());
    }
    local.write_back(line, block)
}
