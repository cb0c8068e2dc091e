//! Tables for programs that try the prover on what stands in their standard input.
#![tactic(auto)]

ghost use Rattle.std.specs.Prelude.{◌≤◌, length, IfOk};

use esc_io::Source;
use std::alloc::{AllocError, Global};

/// The most bytes of a table.
pub const ROOM: usize = 65_536;

/// Fills the front of the room with what the source has, and tells how much that is. A fault counts
/// as the end.
fn fill<S: Source>(source: &mut S, room: &mut [u8]) -> usize
    ensures { result ≤ length room.old }
{
    let mut filled = 0;
    'pieces: for _ in 0..ROOM {
        if filled == room.len() {
            break 'pieces;
        }
        match source.read(&mut room[filled..]) {
            Ok(0) | Err(_) => break 'pieces,
            Ok(count) => filled += count,
        }
    }
    filled
}

/// The bytes of the source, up to the most bytes of a table.
pub fn read_table<S: Source>(alloc: Global, source: &mut S) -> Result<Vec<u8>, AllocError>
    ensures { IfOk result (λ table. length table.items ≤ ROOM) }
{
    let mut room = Vec::from_elem(alloc, 0u8, ROOM)?;
    let filled = fill(source, &mut room);
    room.truncate(filled);
    Ok(room)
}
