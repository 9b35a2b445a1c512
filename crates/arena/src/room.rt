ghost use Rattle.std.specs.Prelude.{◌≡◌, ◌+◌, ◌-◌, ◌<◌, ◌≤◌, [], ◌∷◌, ◌++◌, length, take};
ghost use Rattle.std.specs.Prelude.{nat_le, slice_get, MatchResult};
ghost use Rattle.std.specs.Option.{option_copied};
ghost use Rattle.vocabulary.specs.declared.refusals.MemoryRefusal.TheVariants.{NoHeap};

use std::alloc::Global;
use std::marker::Model;
use vocabulary::refusals::MemoryRefusal;

/// Items up to a limit. All of the room is taken from the heap when it is reserved: no later call can want for it.
#[derive(Drop)]
pub struct Room<T> {
    items: Vec<T>,
    limit: usize,
}

impl<T> Model for Room<T> {
    ghost use Rattle.std.specs.Prelude.{◌≤◌, vec_items, vec_len, vec_capacity};
    ghost use Rattle.arena.specs.Rooms.{Limited};

    ghost Value = { Limited T };

    ghost view = { λ r. record { items = vec_items r.items; limit = r.limit } };

    ghost invariant = { λ r. (vec_len r.items ≤ r.limit) × (r.limit ≤ vec_capacity r.items) };
}

impl<T> Room<T> {
    /// Room for so many, with none in it.
    pub(crate) fn reserve(heap: Global, limit: usize) -> Result<Room<T>, MemoryRefusal>
        ensures { MatchResult result (λ r. r ≡ record { items = []; limit = limit }) (λ e. e ≡ NoHeap) }
    {
        let items = Vec::with_capacity(heap, limit).map_err(|_| MemoryRefusal::NoHeap)?;
        Ok(Room { items, limit })
    }

    /// How many there are.
    pub(crate) fn len(&self) -> usize
        ensures value { result ≡ length self.now.items }
        ensures within { result ≤ self.now.limit }
    {
        self.items.len()
    }

    /// How many more there is room for.
    pub(crate) fn left(&self) -> usize
        ensures { result ≡ self.now.limit - length self.now.items }
    {
        self.limit - self.items.len()
    }

    /// Whether there is room for no more.
    pub(crate) fn is_full(&self) -> bool
        ensures { result ≡ nat_le self.now.limit (length self.now.items) }
    {
        self.items.len() >= self.limit
    }

    /// The one at that place, if there is one.
    pub(crate) fn get(&self, at: usize) -> Option<&T>
        ensures { option_copied result ≡ slice_get self.now.items at }
    {
        self.items.as_slice().get(at)
    }

    /// The items, in the order in which they were put in.
    pub(crate) fn as_slice(&self) -> &[T]
        ensures items { result.now ≡ self.now.items }
        ensures within { length self.now.items ≤ self.now.limit }
    {
        self.items.as_slice()
    }

    /// Puts one behind the others.
    pub(crate) fn push(&mut self, item: T)
        requires { length self.old.items < self.old.limit }
        ensures { self.new ≡ record self.old { items = self.old.items ++ item ∷ [] } }
    {
        self.items.push_reserved(item);
    }
}

impl<T: Drop> Room<T> {
    /// Lets go of all but the first so many, and keeps the room.
    pub(crate) fn truncate(&mut self, len: usize)
        ensures { self.new ≡ record self.old { items = take len self.old.items } }
    {
        self.items.truncate(len);
    }

    /// Lets go of all, and keeps the room.
    pub(crate) fn clear(&mut self)
        ensures { self.new ≡ record self.old { items = [] } }
    {
        self.items.clear();
    }
}

impl Room<u8> {
    /// Puts bytes behind the others.
    pub(crate) fn extend(&mut self, more: &[u8])
        requires { length self.old.items + length more.now ≤ self.old.limit }
        ensures { self.new ≡ record self.old { items = self.old.items ++ more.now } }
    {
        self.items.extend_from_slice(more).unwrap();
    }
}
