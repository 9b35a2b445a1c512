ghost use Rattle.arena.specs.Trials.{Marked};

use crate::arena::Arena;
use meaning::host::Host;

/// Nodes that are made on trial: they stay if the attempt is kept, and else are taken back. The arena is not at hand
/// until the attempt has come to one end or the other.
// No model: an attempt has no value of its own, and its clauses speak of the arena that it holds.
pub struct Attempt<'a, H: Host> {
    pub(crate) arena: &'a mut Arena<H>,
    /// How many records there were.
    pub(crate) nodes: usize,
    /// How many bytes of text there were.
    pub(crate) text: usize,
    ghost marked: { Marked arena.now.store nodes text },
}
