ghost use Rattle.std.specs.Prelude.{◌≡◌};
ghost use Rattle.meaning.specs.HostCode.{part, bytes_of};

use vocabulary::values::{Span, Text};

/// The two texts that a value may lie in: the arena's and the row's.
#[derive(Clone, Copy)]
pub struct Texts<'a> {
    pub arena: &'a [u8],
    pub row: &'a [u8],
}

impl<'a> Texts<'a> {
    /// The bytes of a text. One that passes the end of what it lies in is cut there.
    pub fn bytes_of(self, text: Text) -> &'a [u8]
        ensures { result.now ≡ bytes_of self.entry.arena.now self.entry.row.now text }
    {
        match text {
            Text::Arena(span) => part_of(self.arena, span),
            Text::Row(span) => part_of(self.row, span),
        }
    }
}

/// The bytes of that part of one text, as far as they go.
#[tactic(auto, using(std::proofs::lemmas::List::take_min, std::proofs::lemmas::List::drop_min))]
pub fn part_of(bytes: &[u8], span: Span) -> &[u8]
    ensures { result.now ≡ part bytes.now span }
{
    let rest = &bytes[bytes.len().min(span.start as usize)..];
    &rest[..rest.len().min(span.len as usize)]
}
