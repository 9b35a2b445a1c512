use crate::memory::Memory;
use meaning::host::Host;
use std::marker::Model;
use typing::binder::Binder;

/// An opened arena: it owns what nodes are bound against and its memory, and keeps them for every call.
#[derive(Drop)]
pub struct Arena<H: Host> {
    pub(crate) binder: Binder<H>,
    pub(crate) memory: Memory,
}

impl<H: Host> Model for Arena<H> {
    ghost use Rattle.arena.specs.Opened.{Opened};

    ghost Value = { Opened H };

    ghost use Rattle.arena.specs.ArenaModel.{opened};

    ghost view = { opened };
}
