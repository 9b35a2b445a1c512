ghost use Rattle.arena.specs.Reserving.{Reserved};

use crate::memory::Memory;
use crate::room::Room;
use std::alloc::Global;
use vocabulary::refusals::{MemoryRefusal, Refusal};

/// The most records that an arena can have, so that no node has the number that stands for a new one.
pub const MAX_RECORDS: usize = 65_535;

/// The most bytes of text that an arena can have.
pub const MAX_BYTES: usize = 65_536;

impl Memory {
    /// Empty memory for so many records, 1 to 65,535, and so many bytes of text, at most 65,536.
    pub fn reserve(heap: Global, records: usize, bytes: usize) -> Result<Memory, Refusal>
        ensures { Reserved records bytes result }
    {
        if records < 1 || records > MAX_RECORDS || bytes > MAX_BYTES {
            return Err(MemoryRefusal::OutsideLimits.into());
        }
        let nodes = Room::reserve(heap, records)?;
        let text = Room::reserve(heap, bytes)?;
        Ok(Memory { nodes, text })
    }
}
