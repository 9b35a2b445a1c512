ghost use Rattle.std.specs.Prelude.{◌≡◌, reverse, Ok};
ghost use Rattle.std.specs.Option.{ok_or, option_map};
ghost use Rattle.std.specs.Result.{result_map_both};
ghost use Rattle.vocabulary.specs.declared.refusals.MemoryRefusal.TheVariants.{NoSuchNode};
ghost use Rattle.vocabulary.specs.declared.refusals.BindingRefusal.TheVariants.{WrongChildCount};
ghost use Rattle.vocabulary.specs.declared.refusals.Refusal.TheVariants.{Binding};
ghost use Rattle.vocabulary.specs.Nodes.{child_at, text_of};
ghost use Rattle.meaning.specs.HostCode.{part};
ghost use Rattle.model.specs.Stores.{node_among};
ghost use Rattle.arena.specs.Reading.{of_record, read_bytes};

use crate::memory::Memory;
use meaning::texts::part_of;
use vocabulary::nodes::Node;
use vocabulary::refusals::{BindingRefusal, MemoryRefusal, Refusal};
use vocabulary::values::Span;

impl Memory {
    /// The record of that number.
    pub(crate) fn node(&self, number: u32) -> Result<&Node, MemoryRefusal>
        ensures { result_map_both (λ x. x.now) (λ e. e) result
            ≡ ok_or (node_among (reverse self.now.nodes.items) number) (NoSuchNode number) }
    {
        self.nodes
            .get(number as usize)
            .ok_or(MemoryRefusal::NoSuchNode(number))
    }

    /// How many children a node has.
    pub(crate) fn child_count(&self, node: u32) -> Result<u8, Refusal>
        ensures { result ≡ of_record node (node_among (reverse self.now.nodes.items) node)
            (λ x. Ok x.child_count) }
    {
        Ok(self.node(node)?.child_count)
    }

    /// The child of a node at that position.
    pub(crate) fn child(&self, node: u32, position: u8) -> Result<u32, Refusal>
        ensures { result ≡ of_record node (node_among (reverse self.now.nodes.items) node)
            (λ x. ok_or (child_at x position) (Binding (WrongChildCount node))) }
    {
        let child = self.node(node)?.child(position);
        Ok(child.ok_or(BindingRefusal::WrongChildCount(node))?)
    }

    /// A literal's text or a name, by its bytes.
    pub(crate) fn text_of(&self, node: u32) -> Result<Option<&[u8]>, Refusal>
        ensures { read_bytes result ≡ of_record node (node_among (reverse self.now.nodes.items) node)
            (λ x. Ok (option_map (part self.now.text.items) (text_of x.function))) }
    {
        let span = self.node(node)?.text();
        Ok(span.map(|span| self.text_at(span)))
    }

    /// The bytes of that part of the text.
    pub(crate) fn text_at(&self, span: Span) -> &[u8]
        ensures { result.now ≡ part self.now.text.items span }
    {
        part_of(self.text.as_slice(), span)
    }
}
