ghost use Rattle.std.specs.Prelude.{◌≡◌, ◌≤◌, true, reverse, length, Ok};
ghost use Rattle.std.specs.Option.{option_map, ok_or};
ghost use Rattle.vocabulary.specs.declared.refusals.BindingRefusal.TheVariants.{WrongChildCount};
ghost use Rattle.vocabulary.specs.declared.refusals.Refusal.TheVariants.{Binding};
ghost use Rattle.vocabulary.specs.Nodes.{child_at, text_of};
ghost use Rattle.meaning.specs.HostCode.{part};
ghost use Rattle.arena.specs.Reading.{of_node, read_bytes};
ghost use Rattle.arena.specs.Standing.{all_stand};

use crate::arena::Arena;
use meaning::host::Host;
use schemas::tables::Schemas;
use vocabulary::nodes::Node;
use vocabulary::refusals::Refusal;
use vocabulary::types::DType;

impl<H: Host> Arena<H> {
    /// The record of a node.
    pub fn record(&self, node: u32) -> Result<Node, Refusal>
        ensures { result ≡ of_node self.now.store node
            (λ x. Ok x) }
    {
        Ok(*self.memory.node(node)?)
    }

    /// The type of a node.
    pub fn dtype(&self, node: u32) -> Result<DType, Refusal>
        ensures { result ≡ of_node self.now.store node
            (λ x. Ok x.dtype) }
    {
        Ok(self.memory.node(node)?.dtype)
    }

    /// How many children a node has.
    pub fn child_count(&self, node: u32) -> Result<u8, Refusal>
        ensures { result ≡ of_node self.now.store node
            (λ x. Ok x.child_count) }
    {
        self.memory.child_count(node)
    }

    /// The child of a node at that position. Where there is none, the node has the wrong child count.
    pub fn child(&self, node: u32, position: u8) -> Result<u32, Refusal>
        ensures { result ≡ of_node self.now.store node
            (λ x. ok_or (child_at x position) (Binding (WrongChildCount node))) }
    {
        self.memory.child(node, position)
    }

    /// A literal's text or a name, by its bytes. Other nodes have none.
    pub fn text_of(&self, node: u32) -> Result<Option<&[u8]>, Refusal>
        ensures { read_bytes result ≡ of_node self.now.store node
            (λ x. Ok (option_map (part self.now.store.text)
            (text_of x.function))) }
    {
        self.memory.text_of(node)
    }

    /// The records, each at its number.
    pub fn nodes(&self) -> &[Node]
        ensures held { result.now ≡ reverse self.now.store.nodes }
        ensures standing { all_stand (length self.now.store.text) self.now.store.nodes ≡ true }
        ensures few { length self.now.store.nodes ≤ self.now.store.records }
        ensures numbered { self.now.store.records ≤ 65535 }
    {
        self.memory.nodes.as_slice()
    }

    /// The text: names, and the texts of literals.
    pub fn text(&self) -> &[u8]
        ensures held { result.now ≡ self.now.store.text }
        ensures short { length self.now.store.text ≤ self.now.store.bytes }
        ensures addressed { self.now.store.bytes ≤ 65536 }
    {
        self.memory.text.as_slice()
    }

    /// The host that the arena was opened with.
    pub fn host(&self) -> &H
        ensures { result.now ≡ self.now.host }
    {
        &self.binder.host
    }

    /// The schemas that were declared.
    pub fn schemas(&self) -> &Schemas
        ensures { result.now ≡ self.now.store.schemas }
    {
        &self.binder.schemas
    }
}
