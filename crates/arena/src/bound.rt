ghost use Rattle.std.specs.Prelude.{◌≡◌, length};
ghost use Rattle.model.specs.Making.{make};
ghost use Rattle.model.specs.Rebuilding.{with_children};
ghost use Rattle.typing.specs.Asked.{new_of};
ghost use Rattle.arena.specs.Answered.{Answered};
ghost use Rattle.arena.specs.Bound.{schema_there};

use crate::arena::Arena;
use meaning::host::Host;
use schemas::schemas::SCHEMAS;
use typing::asking::NewFunction;
use vocabulary::nodes::NEW_NODE;
use vocabulary::refusals::{MemoryRefusal, Refusal};

impl<H: Host> Arena<H> {
    /// Makes a node over the children, and answers its number. Its text goes behind the text.
    #[tactic(auto, using(crate::proofs::Answers::made))]
    pub fn try_new(&mut self, function: NewFunction<'_>, children: &[u32]) -> Result<u32, Refusal>
        ensures { Answered result self.old self.new (make (H.Host.meaning self.old.host)
            (new_of function.entry) children.now (length children.now) self.old.store) }
    {
        check_schema(&function)?;
        self.memory.make(&self.binder, NEW_NODE, function, children)
    }

    /// Makes a node of the same function, on the same text, over the children. A Root over none is itself.
    #[tactic(auto, using(crate::proofs::Answers::rebuilt))]
    pub fn with_children(&mut self, node: u32, children: &[u32]) -> Result<u32, Refusal>
        ensures { Answered result self.old self.new (with_children (H.Host.meaning self.old.host)
            node children.now (length children.now) self.old.store) }
    {
        self.memory.rebuild(&self.binder, node, children)
    }
}

/// Whether a Root is of a schema that there is.
fn check_schema(asked: &NewFunction<'_>) -> Result<(), MemoryRefusal>
    ensures { result ≡ schema_there (new_of asked.now) }
{
    match *asked {
        NewFunction::Root(schema) if schema >= SCHEMAS => Err(MemoryRefusal::NoSuchSchema(schema)),
        _ => Ok(()),
    }
}
