//! The machines of a protocol by their numbers.
ghost use Rattle.std.specs.Prelude.{◌≡◌, ◌+◌, Some, length, slice_get, IfErr, IfOk};
ghost use Rattle.std.specs.Option.{option_copied};
ghost use Rattle.slicc_plan.specs.Prelude.{machines_of, machines_among};

use slicc_ast::tree::{Item, Machine, Tree};

/// The machine of this number, which counts from 0 in the order of reading and of the text, or `None` where there are fewer.
pub fn machine_at(trees: &[Tree], number: u16) -> Option<&Machine>
    ensures { option_copied result ≡ slice_get (machines_of trees.now) number }
{
    let [first, trees @ ..] = trees else {
        return None;
    };
    match machine_among(&first.items, number) {
        Ok(m) => Some(m),
        Err(left) => machine_at(trees, left),
    }
}

// The machine of this number among the items, or the number less those that are there.
fn machine_among(items: &[Item], number: u16) -> Result<&Machine, u16>
    ensures found { IfOk result (λ m. slice_get (machines_among items.now) number ≡ Some m.now) }
    ensures passed { IfErr result (λ left. left + length (machines_among items.now) ≡ number) }
{
    let mut left = number;
    for item in items {
        if let Item::Machine(m) = item {
            if left == 0 {
                return Ok(m);
            }
            left -= 1;
        }
    }
    Err(left)
}
