ghost use Rattle.std.specs.Prelude.{◌≡◌, ◌<◌, ◌^◌, IfOk};

use std::alloc::AllocError;

/// A count in 32 bits, in which tables are held; one that does not fit answers want of memory.
pub fn narrow(count: usize) -> Result<u32, AllocError>
    ensures { IfOk result (λ n. (n ≡ count) × (count < 2 ^ 32)) }
{
    if count > u32::MAX as usize {
        return Err(AllocError);
    }
    Ok(count as u32)
}
