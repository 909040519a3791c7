// A leaf more in a tree. `Free` is passed beside the table: a function
// of the tree takes the caller's table as a slice.
ghost use Rattle.std.specs.Prelude.{Some};
ghost use Rattle.table.specs.Reading.{point_in};
ghost use Rattle.grow.specs.Grown.{Ready, Inserted};

use crate::leaf::add_leaf;
use crate::split::{halve, split};
use kinds::Kind;
use table::free::Free;
use table::node::{Node, Stored, read};
use table::subtree::Subtree;
use tree::rewrite::rewrite;
use tree::search::pick_child;

// Lays a leaf for `x` in a tree; where the tree was split, the place of the second part.
pub fn insert_at<K: Kind>(
    nodes: &mut [Node<K::Coordinate, K::Recorded>],
    free: &mut Free,
    tree: Subtree,
    x: Stored<K::Coordinate, K::Recorded>,
) -> Option<u16>
    requires { Ready K.Kind.meaning nodes.old free.old tree.height tree.root }
    ensures { Inserted K.Kind.meaning nodes.old nodes.new free.old free.new tree.height tree.root (point_in K.Kind.meaning x) result }
{
    if tree.height == 0 {
        return Some(add_leaf::<K>(nodes, free, tree.root, x));
    }
    let n = read(nodes, tree.root);
    let i = pick_child::<K>(nodes, n.children, x.key());
    let child = Subtree {
        root: n.children.at(i),
        height: tree.height - 1,
    };
    let Some(q) = insert_at::<K>(nodes, free, child, x) else {
        rewrite(nodes, tree.root, n, n.children);
        return None;
    };
    if n.children.len() < 4 {
        rewrite(nodes, tree.root, n, n.children.insert(i + 1, q));
        return None;
    }
    let next = free.take(nodes);
    split::<K>(nodes, tree, next, n, halve(n.children, i, q));
    Some(next)
}
