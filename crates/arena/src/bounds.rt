ghost use Rattle.std.specs.Prelude.{◌≡◌, ◌<◌, [], ◌∷◌, ◌++◌, length};

use std::marker::Model;
use vocabulary::types::{DType, Kind};

/// The types of children, at most eight.
// An array and a count: a vector without a heap would want a type by default, and types are made by `DType::new` alone.
#[derive(Drop)]
pub(crate) struct Types {
    held: [DType; 8],
    count: usize,
}

impl Model for Types {
    ghost use Rattle.std.specs.Prelude.{◌≡◌, ◌≤◌, List, length, take};
    ghost use Rattle.vocabulary.specs.declared.types.DType.{DType};

    ghost Value = { List DType };

    ghost view = { λ t. take t.count t.held };

    ghost invariant = { λ t. (length t.held ≡ 8) × (t.count ≤ 8) };
}

impl Types {
    /// Of no children.
    pub(crate) fn none() -> Types
        ensures { result ≡ [] }
    {
        Types {
            held: [DType::new(Kind::Bool, false); 8],
            count: 0,
        }
    }

    /// One more, behind the others.
    pub(crate) fn push(&mut self, dtype: DType)
        requires { length self.old < 8 }
        ensures { self.new ≡ self.old ++ dtype ∷ [] }
    {
        self.held[self.count] = dtype;
        self.count += 1;
    }

    /// The types, in the order of the children.
    pub(crate) fn as_slice(&self) -> &[DType]
        ensures { result.now ≡ self.now }
    {
        let held = &self.held[..];
        &held[..self.count]
    }
}

/// What the children of a node come to: their types, at most eight, the largest depth and the sum of the sizes.
#[derive(Drop)]
pub(crate) struct Kin {
    pub(crate) types: Types,
    pub(crate) depth: u16,
    pub(crate) size: u32,
}

/// What is found of a node before it is recorded.
#[derive(Drop)]
pub(crate) struct Bound {
    pub(crate) dtype: DType,
    pub(crate) depth: u16,
    pub(crate) size: u16,
}
