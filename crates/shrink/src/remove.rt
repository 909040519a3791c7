// A leaf is taken away, and on the way up each node that has too few children is joined with a
// neighbour. `Free` is passed beside the table: a function of the tree takes the caller's table as a
// slice.
ghost use Rattle.std.specs.Prelude.{◌≡◌, ◌+◌, ◌-◌, ◌<◌, ◌++◌, length, take, drop, if◌then◌else◌};
ghost use Rattle.table.specs.Kids.{kids_of};
ghost use Rattle.shrink.specs.Removes.{Mendable, Mended, Ready, Removed};

use crate::join::{Pair, join};
use kinds::Kind;
use plain::Key;
use table::children::Children;
use table::free::Free;
use table::node::{Node, read};
use table::subtree::Subtree;
use tree::rewrite::rewrite;
use tree::search::pick_child;

// The children, without number `i` where that one is gone.
fn left_over(children: Children, i: usize, gone: bool) -> Children
    requires { i < length (kids_of children) }
    ensures { kids_of result ≡ (if gone then take i (kids_of children) ++ drop (i + 1) (kids_of children) else kids_of children) }
{
    if gone { children.remove(i) } else { children }
}

// Writes the node `n` again, the root of a tree, after its child number `i` has lost a leaf: where
// that child has too few children, it is joined with the neighbour on its left, or if it is the
// first on its right.
fn mend<K: Kind>(
    nodes: &mut [Node<K::Coordinate, K::Recorded>],
    free: &mut Free,
    tree: Subtree,
    n: Node<K::Coordinate, K::Recorded>,
    i: usize,
)
    requires { Mendable K.Kind.meaning nodes.old free.old tree.root n (tree.height - 1) i }
    ensures { Mended K.Kind.meaning nodes.old nodes.new free.old free.new tree.root n (tree.height - 1) i }
{
    let child = read(nodes, n.children.at(i));
    if child.children.len() >= 2 {
        rewrite(nodes, tree.root, n, n.children);
        return;
    }
    let j = i.saturating_sub(1);
    let pair = Pair {
        left: n.children.at(j),
        right: n.children.at(j + 1),
        height: tree.height - 1,
    };
    let one = join::<K>(nodes, free, pair, i == 0);
    rewrite(nodes, tree.root, n, left_over(n.children, j + 1, one));
}

// Takes the leaf on the way to a key away; its point is not kept any more.
pub fn remove_at<K: Kind>(
    nodes: &mut [Node<K::Coordinate, K::Recorded>],
    free: &mut Free,
    tree: Subtree,
    key: Key<K::Coordinate>,
)
    requires { Ready K.Kind.meaning nodes.old free.old tree.height tree.root }
    ensures { Removed K.Kind.meaning nodes.old nodes.new free.old free.new tree.height tree.root key }
{
    let n = read(nodes, tree.root);
    let i = pick_child::<K>(nodes, n.children, key);
    let child = Subtree {
        root: n.children.at(i),
        height: tree.height - 1,
    };
    if child.height == 0 {
        free.give(nodes, child.root);
        rewrite(nodes, tree.root, n, n.children.remove(i));
        return;
    }
    remove_at::<K>(nodes, free, child, key);
    mend::<K>(nodes, free, tree, n, i);
}
