// A node of a table, and how it is read and written. Nodes name each other by their places in the
// table, a slice that the caller lends: nothing is allocated.
ghost use Rattle.std.specs.Prelude.{◌≡◌, ◌<◌, length, Some, slice_set};
ghost use Rattle.std.specs.List.{slice_get};
ghost use Rattle.table.specs.Keys.{key_in};
ghost use Rattle.table.specs.Nodes.{bare, keeping, over, weighing};

use crate::children::Children;
use plain::Key;

// A point as a node stores it: a binary32 weight by its bits. It is flat, so that a node of such
// points has at most 64 bytes.
#[derive(Clone, Copy, Debug, PartialEq, Eq)]
pub struct Stored<C, R> {
    pub at: C,
    pub number: u32,
    pub weight: R,
}

impl<C: Copy, R: Copy> Stored<C, R> {
    pub fn key(self) -> Key<C>
        ensures { result ≡ key_in self }
    {
        Key {
            at: self.at,
            number: self.number,
        }
    }
}

// `own` has the node's key, and at a leaf the weight of its point; `kept` is the point that the
// node keeps.
#[derive(Clone, Copy, Debug, PartialEq, Eq)]
pub struct Node<C, R> {
    pub own: Stored<C, R>,
    pub kept: Option<Stored<C, R>>,
    pub children: Children,
}

impl<C: Copy, R: Copy> Node<C, R> {
    // A node that keeps nothing.
    pub fn bare(own: Stored<C, R>, children: Children) -> Node<C, R>
        ensures { result ≡ bare own children }
    {
        Node {
            own,
            kept: None,
            children,
        }
    }

    // With another kept point, or none.
    pub fn keeping(self, kept: Option<Stored<C, R>>) -> Node<C, R>
        ensures { result ≡ keeping self kept }
    {
        Node { kept, ..self }
    }

    // Over other children, with the key of the first.
    pub fn over(self, first: Stored<C, R>, children: Children) -> Node<C, R>
        ensures { result ≡ over self first children }
    {
        Node {
            own: first,
            kept: self.kept,
            children,
        }
    }

    // With another weight of its own.
    pub fn weighing(self, weight: R) -> Node<C, R>
        ensures { result ≡ weighing self weight }
    {
        Node {
            own: Stored { weight, ..self.own },
            ..self
        }
    }
}

// The node at a place.
pub fn read<C: Copy, R: Copy>(nodes: &[Node<C, R>], p: u16) -> Node<C, R>
    requires { p < length nodes.now }
    ensures { slice_get nodes.now p ≡ Some result }
{
    nodes[usize::from(p)]
}

pub fn write<C: Copy, R: Copy>(nodes: &mut [Node<C, R>], p: u16, node: Node<C, R>)
    requires { p < length nodes.old }
    ensures { nodes.new ≡ slice_set nodes.old p node }
{
    nodes[usize::from(p)] = node;
}
