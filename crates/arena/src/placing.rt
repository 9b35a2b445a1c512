ghost use Rattle.std.specs.Prelude.{◌≡◌};
ghost use Rattle.arena.specs.Placing.{room_in};

use crate::memory::Memory;
use vocabulary::refusals::MemoryRefusal;
use vocabulary::values::Span;

impl Memory {
    /// Where so many bytes more lie in the text, if there is room for them and for one more record.
    pub(crate) fn span_for(&self, place: u32, more: usize) -> Result<Span, MemoryRefusal>
        ensures { result ≡ room_in place self.now more }
    {
        if self.nodes.is_full() {
            return Err(MemoryRefusal::RecordsFull(place));
        }
        if more > self.text.left() {
            return Err(MemoryRefusal::TextFull(place));
        }
        Ok(Span {
            start: self.text.len() as u32,
            len: more as u32,
        })
    }
}
