ghost use Rattle.std.specs.Prelude.{◌≡◌, length};
ghost use Rattle.model.specs.Unbound.{empty_unbound};
ghost use Rattle.model.specs.UnboundMaking.{make_unbound, unbound_with_children};
ghost use Rattle.typing.specs.Asked.{new_of};
ghost use Rattle.arena.specs.Answered.{Made};
ghost use Rattle.arena.specs.Opened.{records_of, bytes_of};

use crate::memory::Memory;
use crate::unbound::UnboundArena;
use typing::asking::NewFunction;
use typing::untyped::Untyped;
use vocabulary::nodes::NEW_NODE;
use vocabulary::refusals::Refusal;

impl UnboundArena {
    /// An arena without nodes, in that memory.
    pub fn open(mut memory: Memory) -> UnboundArena
        ensures { result ≡ empty_unbound (records_of memory) (bytes_of memory) }
    {
        memory.clear();
        UnboundArena { memory }
    }

    /// Makes a node over the children, and answers its number. Its text goes behind the text; the
    /// schema of a Root is not looked at.
    #[tactic(auto, using(crate::proofs::Answers::made_unbound, crate::proofs::Answers::made_loose))]
    pub fn try_new(&mut self, function: NewFunction<'_>, children: &[u32]) -> Result<u32, Refusal>
        ensures { Made result self.new (make_unbound (new_of function.entry)
            children.now (length children.now) self.old) }
    {
        self.memory.make(&Untyped, NEW_NODE, function, children)
    }

    /// Makes a node of the same function, on the same text, over the children. A Root over none is itself.
    #[tactic(auto, using(crate::proofs::Answers::rebuilt_unbound, crate::proofs::Answers::rebuilt_loose))]
    pub fn with_children(&mut self, node: u32, children: &[u32]) -> Result<u32, Refusal>
        ensures { Made result self.new (unbound_with_children node children.now
            (length children.now) self.old) }
    {
        self.memory.rebuild(&Untyped, node, children)
    }
}
