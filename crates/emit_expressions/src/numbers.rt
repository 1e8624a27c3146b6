// Numbers of 16 bits.
ghost use Rattle.std.specs.Prelude.{◌≡◌, IfOk};

use ruby_base::NoMemory;

/// A number of 16 bits. What needs more counts as too much for the memory.
pub fn index16(n: usize) -> Result<u16, NoMemory>
    ensures { IfOk result (λ k. k ≡ n) }
{
    match u16::try_from(n) {
        Ok(k) => Ok(k),
        Err(_) => Err(NoMemory),
    }
}
