use crate::memory::Memory;
use std::marker::Model;

/// An arena of unbound trees: they have no types and no host, and their Roots no schema, until they are bound.
#[derive(Drop)]
pub struct UnboundArena {
    pub(crate) memory: Memory,
}

impl Model for UnboundArena {
    ghost use Rattle.model.specs.Unbound.{UnboundStore};

    ghost Value = { UnboundStore };

    ghost use Rattle.arena.specs.UnboundModel.{nodes_and_text, IsLoose};

    ghost view = { nodes_and_text };

    ghost invariant = { IsLoose };
}
