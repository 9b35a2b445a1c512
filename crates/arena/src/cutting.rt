ghost use Rattle.std.specs.Prelude.{◌≡◌, ◌≤◌, true, reverse, take, length};
ghost use Rattle.arena.specs.Standing.{all_stand};

use crate::memory::Memory;

impl Memory {
    /// Lets go of all but the first `nodes` records, which stand in the first `text` bytes, and of the text behind
    /// these.
    pub(crate) fn cut(&mut self, nodes: usize, text: usize)
        requires within { text ≤ length self.old.text.items }
        requires standing { all_stand text (reverse (take nodes self.old.nodes.items)) ≡ true }
        ensures nodes { self.new.nodes ≡ record self.old.nodes { items = take nodes self.old.nodes.items } }
        ensures text { self.new.text ≡ record self.old.text { items = take text self.old.text.items } }
    {
        self.nodes.truncate(nodes);
        self.text.truncate(text);
    }
}
