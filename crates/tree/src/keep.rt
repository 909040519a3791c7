// How points that nodes keep move: down towards their leaves, and up where one has gone. `Sound` is
// asked of each call, and is no ghost field of `Subtree`: it is a fact about the table passed beside it.
ghost use Rattle.std.specs.Prelude.{◌≡◌, length, if◌then◌else◌};
ghost use Rattle.std.specs.Ordering.{is_lt};
ghost use Rattle.plain.specs.Points.{rank_order};
ghost use Rattle.trees.specs.Kept.{has_key};
ghost use Rattle.trees.specs.Kept.{pull as pulled};
ghost use Rattle.trees.specs.Kept.{push as pushed};
ghost use Rattle.trees.specs.Kept.{take_out as taken_out};
ghost use Rattle.trees.specs.Kept.{weigh as weighed};
ghost use Rattle.table.specs.Reading.{point_in, kept_in, tree_of, Sound, Became};

use crate::search::{best_child, outranks, pick_child};
use kinds::Kind;
use plain::{Key, key_order};
use table::node::{Node, Stored, read, write};
use table::subtree::Subtree;

// The point that a node keeps goes; of those that its children keep the first in rank moves up,
// and so on below.
pub fn pull<K: Kind>(nodes: &mut [Node<K::Coordinate, K::Recorded>], tree: Subtree)
    requires { Sound (length nodes.old) tree.height (tree_of K.Kind.meaning nodes.old tree) }
    ensures { Became K.Kind.meaning nodes.old nodes.new tree.height tree.root (pulled K.Kind.meaning tree.height (tree_of K.Kind.meaning nodes.old tree)) }
{
    let n = read(nodes, tree.root);
    if tree.height == 0 {
        write(nodes, tree.root, n.keeping(None));
        return;
    }
    let i = best_child::<K>(nodes, n.children);
    let child = Subtree {
        root: n.children.at(i),
        height: tree.height - 1,
    };
    let top = read(nodes, child.root);
    let kept = top.kept;
    let Some(_) = kept else {
        write(nodes, tree.root, n.keeping(None));
        return;
    };
    pull::<K>(nodes, child);
    write(nodes, tree.root, n.keeping(kept));
}

// Two points in rank order.
#[derive(Clone, Copy, Debug, PartialEq, Eq)]
pub struct Ranked<C, R> {
    pub first: Stored<C, R>,
    pub last: Stored<C, R>,
}

fn in_rank<K: Kind>(
    x: Stored<K::Coordinate, K::Recorded>,
    y: Stored<K::Coordinate, K::Recorded>,
) -> Ranked<K::Coordinate, K::Recorded>
    ensures first { result.first ≡ (if is_lt (rank_order K.Kind.meaning (point_in K.Kind.meaning x) (point_in K.Kind.meaning y)) then x else y) }
    ensures last { result.last ≡ (if is_lt (rank_order K.Kind.meaning (point_in K.Kind.meaning x) (point_in K.Kind.meaning y)) then y else x) }
{
    if outranks::<K>(x, y) {
        return Ranked { first: x, last: y };
    }
    Ranked { first: y, last: x }
}

// `x` joins the points kept: at the first node that keeps none; at any other, the one of the two
// that comes first in rank stays, and the other goes on towards its leaf.
pub fn push<K: Kind>(
    nodes: &mut [Node<K::Coordinate, K::Recorded>],
    tree: Subtree,
    x: Stored<K::Coordinate, K::Recorded>,
)
    requires { Sound (length nodes.old) tree.height (tree_of K.Kind.meaning nodes.old tree) }
    ensures { Became K.Kind.meaning nodes.old nodes.new tree.height tree.root (pushed K.Kind.meaning tree.height (point_in K.Kind.meaning x) (tree_of K.Kind.meaning nodes.old tree)) }
{
    let n = read(nodes, tree.root);
    if tree.height == 0 {
        write(nodes, tree.root, n.keeping(Some(x)));
        return;
    }
    let kept = n.kept;
    let Some(y) = kept else {
        write(nodes, tree.root, n.keeping(Some(x)));
        return;
    };
    let two = in_rank::<K>(x, y);
    let i = pick_child::<K>(nodes, n.children, two.last.key());
    let child = Subtree {
        root: n.children.at(i),
        height: tree.height - 1,
    };
    push::<K>(nodes, child, two.last);
    write(nodes, tree.root, n.keeping(Some(two.first)));
}

// Whether a node keeps the point of a key.
fn keeps_key<K: Kind>(n: Node<K::Coordinate, K::Recorded>, key: Key<K::Coordinate>) -> bool
    ensures { result ≡ has_key K.Kind.meaning key (kept_in K.Kind.meaning n) }
{
    n.kept.is_some_and(|x| key_order::<K>(key, x.key()).is_eq())
}

// The point of a key is no longer kept.
pub fn take_out<K: Kind>(
    nodes: &mut [Node<K::Coordinate, K::Recorded>],
    tree: Subtree,
    key: Key<K::Coordinate>,
)
    requires { Sound (length nodes.old) tree.height (tree_of K.Kind.meaning nodes.old tree) }
    ensures { Became K.Kind.meaning nodes.old nodes.new tree.height tree.root (taken_out K.Kind.meaning tree.height key (tree_of K.Kind.meaning nodes.old tree)) }
{
    let n = read(nodes, tree.root);
    if tree.height == 0 {
        write(nodes, tree.root, n.keeping(None));
        return;
    }
    if keeps_key::<K>(n, key) {
        pull::<K>(nodes, tree);
        return;
    }
    let i = pick_child::<K>(nodes, n.children, key);
    let child = Subtree {
        root: n.children.at(i),
        height: tree.height - 1,
    };
    take_out::<K>(nodes, child, key);
}

// The leaf on the way to a key gets another weight.
pub fn weigh<K: Kind>(
    nodes: &mut [Node<K::Coordinate, K::Recorded>],
    tree: Subtree,
    key: Key<K::Coordinate>,
    weight: K::Recorded,
)
    requires { Sound (length nodes.old) tree.height (tree_of K.Kind.meaning nodes.old tree) }
    ensures { Became K.Kind.meaning nodes.old nodes.new tree.height tree.root (weighed K.Kind.meaning tree.height key (K.Kind.meaning.recalled weight) (tree_of K.Kind.meaning nodes.old tree)) }
{
    let n = read(nodes, tree.root);
    if tree.height == 0 {
        write(nodes, tree.root, n.weighing(weight));
        return;
    }
    let i = pick_child::<K>(nodes, n.children, key);
    let child = Subtree {
        root: n.children.at(i),
        height: tree.height - 1,
    };
    weigh::<K>(nodes, child, key, weight);
}
