// Nodes laid anew over trees that stand, and points that find their place in them. Several trees of
// one height are their places and that height: each has a root of its own. `Sounds` is a premise, as
// it is a fact about the table lent beside them, and that there is a tree: a leaf has no children.
ghost use Rattle.std.specs.Prelude.{◌≡◌, ◌-◌, ◌<◌, length, Some};
ghost use Rattle.trees.specs.Tree.{grow, uses_all};
ghost use Rattle.table.specs.Kids.{kids_of};
ghost use Rattle.table.specs.Reading.{point_in, kept_in, tree_at, Sounds};
ghost use Rattle.tree.specs.Forests.{Laid, Seated};

use crate::keep::{pull, push};
use crate::search::pick_child;
use kinds::Kind;
use table::children::Children;
use table::node::{Node, Stored, read, write};
use table::subtree::Subtree;

// Lays a node over some trees; it keeps the first in rank of what they kept.
pub fn settle<K: Kind>(
    nodes: &mut [Node<K::Coordinate, K::Recorded>],
    tree: Subtree,
    children: Children,
)
    requires within { tree.root < length nodes.old }
    requires above { 0 < tree.height }
    requires some { 0 < length (kids_of children) }
    requires sounds { Sounds (length nodes.old) (tree.height - 1) (grow (tree_at K.Kind.meaning nodes.old (tree.height - 1)) (kids_of children)) }
    requires apart { uses_all (grow (tree_at K.Kind.meaning nodes.old (tree.height - 1)) (kids_of children)) tree.root ≡ 0 }
    ensures { Laid K.Kind.meaning nodes.old nodes.new tree.height tree.root (kids_of children) }
{
    let first = read(nodes, children.at(0));
    write(nodes, tree.root, Node::bare(first.own, children));
    pull::<K>(nodes, tree);
}

// `x` joins the points kept in some trees of one height, at the one on the way to its leaf.
pub fn seat<K: Kind>(
    nodes: &mut [Node<K::Coordinate, K::Recorded>],
    trees: Children,
    height: u8,
    x: Stored<K::Coordinate, K::Recorded>,
)
    requires some { 0 < length (kids_of trees) }
    requires sounds { Sounds (length nodes.old) height (grow (tree_at K.Kind.meaning nodes.old height) (kids_of trees)) }
    ensures { Seated K.Kind.meaning nodes.old nodes.new height (kids_of trees) (Some (point_in K.Kind.meaning x)) }
{
    let i = pick_child::<K>(nodes, trees, x.key());
    let root = trees.at(i);
    push::<K>(nodes, Subtree { root, height }, x);
}

// The point that a node kept, if any, joins those kept in some trees.
pub fn seat_kept<K: Kind>(
    nodes: &mut [Node<K::Coordinate, K::Recorded>],
    trees: Children,
    height: u8,
    node: Node<K::Coordinate, K::Recorded>,
)
    requires some { 0 < length (kids_of trees) }
    requires sounds { Sounds (length nodes.old) height (grow (tree_at K.Kind.meaning nodes.old height) (kids_of trees)) }
    ensures { Seated K.Kind.meaning nodes.old nodes.new height (kids_of trees) (kept_in K.Kind.meaning node) }
{
    if let Some(x) = node.kept {
        seat::<K>(nodes, trees, height, x);
    }
}
