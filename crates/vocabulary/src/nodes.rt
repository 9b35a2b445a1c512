ghost use Rattle.std.specs.Prelude.{◌≡◌, min, length, Some, None};
ghost use Rattle.vocabulary.specs.Nodes.{padded, recorded, child_at, text_of, untyped};

use crate::operators::*;
use crate::types::*;
use crate::values::*;

/// The most children that a node has.
pub const MAX_CHILDREN: u8 = 8;

/// The number that stands for a new node in a refusal: no node is made with it.
// A number and no `Option`: refusals promise and print it.
pub const NEW_NODE: u32 = 65_535;

/// What a node computes of its children.
#[derive(Clone, Copy)]
pub enum Function {
    /// The row itself. Its type says of which schema.
    Root,
    /// A constant of a type; its text lies in the arena.
    Literal(DType, Value),
    /// A column of a row, by the name at that place of the arena's text.
    GetItem(Span),
    /// Its child, in a type of the same kind that may be nullable where the child's is not.
    Cast(DType),
    Binary(Operator),
    Between(BetweenOptions),
    /// A function of the host, by its code.
    Host(u16),
}

/// The record of a node in an arena, with its type.
#[derive(Clone, Copy)]
pub struct Node<T = DType> {
    pub function: Function,
    /// The numbers of the children; those behind `child_count` are zero.
    // Eight places and a count, since a record takes no memory beyond the arena's own.
    pub children: [u32; 8],
    pub child_count: u8,
    pub dtype: T,
    /// Nodes on the longest path down.
    pub depth: u16,
    /// Nodes of the whole tree, each as often as it stands there.
    pub size: u16,
}

/// The record of an unbound node: it has no type, and so a Root no schema.
pub type UnboundNode = Node<()>;

/// The first eight of the children, with zeros behind them.
fn first_children(children: &[u32]) -> [u32; 8]
    ensures { result ≡ padded children.now (min (length children.now) 8) }
{
    let count = children.len().min(8);
    let mut kept = [0; 8];
    kept[..count].copy_from_slice(&children[..count]);
    kept
}

impl<T: Copy> Node<T> {
    /// A record over the children, at most eight, with zeros behind them.
    pub fn new(function: Function, children: &[u32], dtype: T, depth: u16, size: u16) -> Node<T>
        ensures { result ≡ recorded function children.now (length children.now) dtype depth size }
    {
        Node {
            function,
            children: first_children(children),
            child_count: children.len().min(8) as u8,
            dtype,
            depth,
            size,
        }
    }

    /// The child at that position, if there is one.
    pub fn child(&self, position: u8) -> Option<u32>
        ensures { result ≡ child_at self.now position }
    {
        if position < self.child_count && position < MAX_CHILDREN {
            Some(self.children[usize::from(position)])
        } else {
            None
        }
    }

    /// Where the literal's text or the name lies in the arena's text, if the node has one.
    pub fn text(&self) -> Option<Span>
        ensures { result ≡ text_of self.now.function }
    {
        match self.function {
            Function::Literal(_, Value::Utf8(Text::Arena(span))) => Some(span),
            Function::GetItem(span) => Some(span),
            _ => None,
        }
    }
}

impl Node {
    /// The record without its type.
    pub fn untyped(&self) -> UnboundNode
        ensures { result ≡ untyped self.now }
    {
        Node {
            function: self.function,
            children: self.children,
            child_count: self.child_count,
            dtype: (),
            depth: self.depth,
            size: self.size,
        }
    }
}
