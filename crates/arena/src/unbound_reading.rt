ghost use Rattle.std.specs.Prelude.{◌≡◌, ◌≤◌, true, length, Ok};
ghost use Rattle.std.specs.Option.{option_map, ok_or};
ghost use Rattle.vocabulary.specs.declared.refusals.BindingRefusal.TheVariants.{WrongChildCount};
ghost use Rattle.vocabulary.specs.declared.refusals.Refusal.TheVariants.{Binding};
ghost use Rattle.vocabulary.specs.Nodes.{child_at, text_of};
ghost use Rattle.meaning.specs.HostCode.{part};
ghost use Rattle.arena.specs.Reading.{of_unbound, read_bytes};
ghost use Rattle.arena.specs.Standing.{all_stand};

use crate::unbound::UnboundArena;
use vocabulary::nodes::UnboundNode;
use vocabulary::refusals::Refusal;

// The arena of bound trees has the same readers. What they do stands once, in `Memory`; what they promise is said of
// records without types here, and of records with them there.
impl UnboundArena {
    /// The record of a node.
    #[tactic(auto, using(crate::proofs::AsUnbound::among_untyped))]
    pub fn record(&self, node: u32) -> Result<UnboundNode, Refusal>
        ensures { result ≡ of_unbound self.now node (λ x. Ok x) }
    {
        Ok(self.memory.node(node)?.untyped())
    }

    /// How many children a node has.
    #[tactic(auto, using(crate::proofs::AsUnbound::among_untyped))]
    pub fn child_count(&self, node: u32) -> Result<u8, Refusal>
        ensures { result ≡ of_unbound self.now node (λ x. Ok x.child_count) }
    {
        self.memory.child_count(node)
    }

    /// The child of a node at that position. Where there is none, the node has the wrong child count.
    #[tactic(auto, using(crate::proofs::AsUnbound::among_untyped))]
    pub fn child(&self, node: u32, position: u8) -> Result<u32, Refusal>
        ensures { result ≡ of_unbound self.now node
            (λ x. ok_or (child_at x position) (Binding (WrongChildCount node))) }
    {
        self.memory.child(node, position)
    }

    /// A literal's text or a name, by its bytes. Other nodes have none.
    #[tactic(auto, using(crate::proofs::AsUnbound::among_untyped))]
    pub fn text_of(&self, node: u32) -> Result<Option<&[u8]>, Refusal>
        ensures { read_bytes result ≡ of_unbound self.now node
            (λ x. Ok (option_map (part self.now.text) (text_of x.function))) }
    {
        self.memory.text_of(node)
    }

    /// How many nodes there are.
    #[tactic(auto, using(crate::proofs::Untyped::all_stand_untyped))]
    pub fn len(&self) -> usize
        ensures value { result ≡ length self.now.nodes }
        ensures standing { all_stand (length self.now.text) self.now.nodes ≡ true }
        ensures few { length self.now.nodes ≤ self.now.records }
        ensures numbered { self.now.records ≤ 65535 }
    {
        self.memory.nodes.len()
    }

    /// The text: names, and the texts of literals.
    pub fn text(&self) -> &[u8]
        ensures held { result.now ≡ self.now.text }
        ensures short { length self.now.text ≤ self.now.bytes }
        ensures addressed { self.now.bytes ≤ 65536 }
    {
        self.memory.text.as_slice()
    }
}
