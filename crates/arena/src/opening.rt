ghost use Rattle.std.specs.Prelude.{◌≡◌, []};
ghost use Rattle.model.specs.Stores.{empty};
ghost use Rattle.arena.specs.Opened.{records_of, bytes_of};

use crate::arena::Arena;
use crate::memory::Memory;
use meaning::host::Host;
use schemas::declaring::Declaring;
use typing::binder::Binder;

impl Memory {
    /// Lets go of all records and of the text, and keeps the room.
    pub(crate) fn clear(&mut self)
        ensures nodes { self.new.nodes ≡ record self.old.nodes { items = [] } }
        ensures text { self.new.text ≡ record self.old.text { items = [] } }
    {
        self.nodes.clear();
        self.text.clear();
    }
}

impl<H: Host> Arena<H> {
    /// Ends declaring: an arena without nodes over those schemas, with that host, in that memory.
    pub fn open(declaring: Declaring, host: H, mut memory: Memory) -> Arena<H>
        ensures opened { result.store ≡ empty declaring (records_of memory) (bytes_of memory) }
        ensures host { result.host ≡ host }
    {
        memory.clear();
        Arena {
            binder: Binder {
                schemas: declaring.finish(),
                host,
            },
            memory,
        }
    }
}
