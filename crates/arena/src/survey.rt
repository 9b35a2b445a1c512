ghost use Rattle.std.specs.Prelude.{◌≡◌, [], length};
ghost use Rattle.model.specs.Making.{looked_up, named};
ghost use Rattle.arena.specs.Opened.{store};
ghost use Rattle.arena.specs.Surveying.{surveyed, no_kin, deeper, larger};

use crate::bounds::{Kin, Types};
use crate::memory::Memory;
use vocabulary::nodes::MAX_CHILDREN;
use vocabulary::refusals::{BindingRefusal, Refusal};

/// The most nodes on a path down from a node, itself included.
pub const MAX_DEPTH: u16 = 256;

/// The most nodes of a tree.
pub const MAX_SIZE: u32 = 4096;

impl Memory {
    /// Looks at the children, at most eight, up to the first that is no node.
    pub(crate) fn survey(&self, children: &[u32]) -> Result<Kin, Refusal>
        ensures { result ≡ surveyed no_kin
            (looked_up (store [] self.now) (named children.now (length children.now))) }
    {
        let mut types = Types::none();
        let mut depth = 0;
        let mut size = 0;
        let first = &children[..children.len().min(usize::from(MAX_CHILDREN))];
        for &child in first {
            let node = self.node(child)?;
            types.push(node.dtype);
            depth = depth.max(node.depth);
            size += u32::from(node.size);
        }
        Ok(Kin { types, depth, size })
    }
}

impl Kin {
    /// The depth of a node over them.
    pub(crate) fn depth_above(&self, place: u32) -> Result<u16, BindingRefusal>
        ensures { result ≡ deeper place self.now.depth }
    {
        if self.depth < MAX_DEPTH {
            Ok(self.depth + 1)
        } else {
            Err(BindingRefusal::TooDeep(place))
        }
    }

    /// The size of a node over them.
    pub(crate) fn size_above(&self, place: u32) -> Result<u16, BindingRefusal>
        ensures { result ≡ larger place self.now.size }
    {
        if self.size < MAX_SIZE {
            Ok((self.size + 1) as u16)
        } else {
            Err(BindingRefusal::TooLarge(place))
        }
    }
}
