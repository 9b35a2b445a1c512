ghost use Rattle.std.specs.Prelude.{◌≡◌, length};
ghost use Rattle.model.specs.Making.{make};
ghost use Rattle.model.specs.Rebuilding.{with_children};
ghost use Rattle.typing.specs.Asked.{new_of};
ghost use Rattle.arena.specs.Answered.{Answered};
ghost use Rattle.arena.specs.Marks.{KeepsItsMarks};
ghost use Rattle.arena.specs.Trials.{TakenBack};

use crate::arena::Arena;
use crate::attempt::Attempt;
use meaning::host::Host;
use typing::asking::NewFunction;
use vocabulary::refusals::Refusal;

// A rule of this repository: a bug in a public function is refused at its own lines. So the private `make` and `rebuild`
// have the answers.
impl<'a, H: Host> Attempt<'a, H> {
    /// Nodes are made on trial from here.
    #[tactic(auto, using(crate::proofs::Kept::marked_at_end))]
    pub fn begin(arena: &'a mut Arena<H>) -> Attempt<'a, H>
        ensures same { result.arena.ghost_name ≡ arena.entry.ghost_name }
        ensures arena { result.arena.now ≡ arena.old }
        ensures nodes { result.nodes ≡ length arena.old.store.nodes }
        ensures text { result.text ≡ length arena.old.store.text }
    {
        let nodes = arena.nodes().len();
        let text = arena.text().len();
        Attempt { arena, nodes, text }
    }

    /// The arena with what was made on trial.
    pub fn arena(&self) -> &Arena<H>
        ensures { result.now ≡ self.now.arena.now }
    {
        &*self.arena
    }

    /// Makes a node on trial.
    pub fn try_new(&mut self, function: NewFunction<'_>, children: &[u32]) -> Result<u32, Refusal>
        ensures made { Answered result self.old.arena.now self.new.arena.now
            (make (H.Host.meaning self.old.arena.now.host) (new_of function.entry) children.now
            (length children.now) self.old.arena.now.store) }
        ensures marks { KeepsItsMarks self.old self.new }
    {
        self.make(function, children)
    }

    /// Makes a node on trial, of the function of another over other children.
    pub fn with_children(&mut self, node: u32, children: &[u32]) -> Result<u32, Refusal>
        ensures rebuilt { Answered result self.old.arena.now self.new.arena.now
            (with_children (H.Host.meaning self.old.arena.now.host) node children.now
            (length children.now) self.old.arena.now.store) }
        ensures marks { KeepsItsMarks self.old self.new }
    {
        self.rebuild(node, children)
    }

    /// Leaves what was made.
    pub fn keep(self)
        ensures { self.exit.0.now ≡ self.entry.arena.now }
    {
        let Attempt {
            arena: _,
            nodes: _,
            text: _,
        } = self;
    }

    /// Takes back what was made.
    #[tactic(auto, using(crate::proofs::Kept::text_may_go, crate::proofs::Kept::nodes_may_go, crate::proofs::Kept::cut_is, crate::proofs::Kept::cut_marked))]
    pub fn take_back(self)
        ensures { TakenBack self.entry.nodes self.entry.text self.entry.arena.now self.exit.0.now }
    {
        let Attempt { arena, nodes, text } = self;
        arena.memory.cut(nodes, text);
    }

    /// Making: what was there before stays in front.
    fn make(&mut self, function: NewFunction<'_>, children: &[u32]) -> Result<u32, Refusal>
        ensures made { Answered result self.old.arena.now self.new.arena.now
            (make (H.Host.meaning self.old.arena.now.host) (new_of function.entry) children.now
            (length children.now) self.old.arena.now.store) }
        ensures marks { KeepsItsMarks self.old self.new }
    {
        self.arena.try_new(function, children)
    }

    /// Rebuilding: what was there before stays in front.
    fn rebuild(&mut self, node: u32, children: &[u32]) -> Result<u32, Refusal>
        ensures rebuilt { Answered result self.old.arena.now self.new.arena.now
            (with_children (H.Host.meaning self.old.arena.now.host) node children.now
            (length children.now) self.old.arena.now.store) }
        ensures marks { KeepsItsMarks self.old self.new }
    {
        self.arena.with_children(node, children)
    }
}
