// Two neighbours of which one has a child too few: they become one node, or one child changes
// sides. `Free` is passed beside the table: a function of the tree takes the caller's table as a
// slice. What is known of the trees in it is a premise, and that there is a child, since a leaf has
// none. Several trees of one height are their places and that height: each has a root of its own.
ghost use Rattle.std.specs.Prelude.{◌≡◌, ◌+◌, ◌-◌, ◌<◌, ◌≤◌, true, false, [], ◌∷◌, ◌++◌, length};
ghost use Rattle.trees.specs.Tree.{◌⊕◌, grow, count, children_of};
ghost use Rattle.table.specs.Kids.{kids_of};
ghost use Rattle.table.specs.Reading.{kept_in, tree_at, Sounds};
ghost use Rattle.shrink.specs.Joins.{SeatedBoth, Neighbours, Poor, Spared, Fused, Shared, Joint};

use kinds::Kind;
use table::children::{Children, Sides};
use table::free::Free;
use table::node::{Node, read};
use table::subtree::Subtree;
use tree::settle::{seat_kept, settle};

// Two neighbours, by where they stand and how high they are.
#[derive(Clone, Copy, Debug, PartialEq, Eq)]
pub struct Pair {
    pub left: u16,
    pub right: u16,
    pub height: u8,
}

// The first child of the right node goes to the left one, as its last.
fn to_left(ls: Children, rs: Children) -> Sides
    requires { (length (kids_of ls) < 4) × (0 < length (kids_of rs)) }
    ensures same { kids_of result.left ++ kids_of result.right ≡ kids_of ls ++ kids_of rs }
    ensures more { length (kids_of result.left) ≡ length (kids_of ls) + 1 }
{
    Sides {
        left: ls.insert(ls.len(), rs.at(0)),
        right: rs.back(1),
    }
}

// The last child of the left node goes to the right one, as its first.
fn to_right(ls: Children, rs: Children) -> Sides
    requires { (0 < length (kids_of ls)) × (length (kids_of rs) < 4) }
    ensures same { kids_of result.left ++ kids_of result.right ≡ kids_of ls ++ kids_of rs }
    ensures less { length (kids_of result.left) ≡ length (kids_of ls) - 1 }
{
    let last = ls.len() - 1;
    Sides {
        left: ls.front(last),
        right: rs.insert(0, ls.at(last)),
    }
}

// The points that two nodes kept, if any, join those kept in some trees.
fn seat_both<K: Kind>(
    nodes: &mut [Node<K::Coordinate, K::Recorded>],
    trees: Children,
    height: u8,
    first: Node<K::Coordinate, K::Recorded>,
    last: Node<K::Coordinate, K::Recorded>,
)
    requires some { 0 < length (kids_of trees) }
    requires sounds { Sounds (length nodes.old) height (grow (tree_at K.Kind.meaning nodes.old height) (kids_of trees)) }
    ensures { SeatedBoth K.Kind.meaning nodes.old nodes.new height (kids_of trees) (kept_in K.Kind.meaning first) (kept_in K.Kind.meaning last) }
{
    seat_kept::<K>(nodes, trees, height, first);
    seat_kept::<K>(nodes, trees, height, last);
}

// `Neighbours` is a premise here and below: a fact about the table lent beside the pair.
//
// The two become one node, at the place of the left one; the other place is free again.
fn fuse<K: Kind>(nodes: &mut [Node<K::Coordinate, K::Recorded>], free: &mut Free, pair: Pair)
    requires pair { Neighbours K.Kind.meaning nodes.old pair.height pair.left pair.right }
    requires spared { Spared K.Kind.meaning nodes.old free.old pair.height (pair.left ∷ pair.right ∷ []) }
    requires few { count (children_of (tree_at K.Kind.meaning nodes.old pair.height pair.left)) + count (children_of (tree_at K.Kind.meaning nodes.old pair.height pair.right)) ≤ 4 }
    ensures { Fused K.Kind.meaning nodes.old nodes.new pair.height pair.left pair.right free.old free.new }
{
    let first = read(nodes, pair.left);
    let last = read(nodes, pair.right);
    let tree = Subtree {
        root: pair.left,
        height: pair.height,
    };
    settle::<K>(nodes, tree, first.children.append(last.children));
    seat_both::<K>(nodes, Children::of(&[pair.left]), pair.height, first, last);
    free.give(nodes, pair.right);
}

// The two share their children in another way.
fn share<K: Kind>(nodes: &mut [Node<K::Coordinate, K::Recorded>], pair: Pair, new: Sides)
    requires pair { Neighbours K.Kind.meaning nodes.old pair.height pair.left pair.right }
    requires same { grow (tree_at K.Kind.meaning nodes.old (pair.height - 1)) (kids_of new.left) ⊕ grow (tree_at K.Kind.meaning nodes.old (pair.height - 1)) (kids_of new.right) ≡ children_of (tree_at K.Kind.meaning nodes.old pair.height pair.left) ⊕ children_of (tree_at K.Kind.meaning nodes.old pair.height pair.right) }
    requires some { (0 < length (kids_of new.left)) × (0 < length (kids_of new.right)) }
    ensures { Shared K.Kind.meaning nodes.old nodes.new pair.height pair.left pair.right (kids_of new.left) (kids_of new.right) }
{
    let first = read(nodes, pair.left);
    let last = read(nodes, pair.right);
    let height = pair.height;
    let left = Subtree {
        root: pair.left,
        height,
    };
    let right = Subtree {
        root: pair.right,
        height,
    };
    settle::<K>(nodes, left, new.left);
    settle::<K>(nodes, right, new.right);
    let both = Children::of(&[pair.left, pair.right]);
    seat_both::<K>(nodes, both, height, first, last);
}

// Joins two neighbours, of which the left one, or else the right one, has one child. Whether they
// are one node now.
pub fn join<K: Kind>(
    nodes: &mut [Node<K::Coordinate, K::Recorded>],
    free: &mut Free,
    pair: Pair,
    left: bool,
) -> bool
    requires pair { Neighbours K.Kind.meaning nodes.old pair.height pair.left pair.right }
    requires poor { Poor K.Kind.meaning nodes.old pair.height pair.left pair.right left }
    requires spared { Spared K.Kind.meaning nodes.old free.old pair.height (pair.left ∷ pair.right ∷ []) }
    ensures { Joint K.Kind.meaning nodes.old nodes.new pair.height pair.left pair.right free.old free.new left result }
{
    let ls = read(nodes, pair.left).children;
    let rs = read(nodes, pair.right).children;
    if ls.len() + rs.len() < 4 {
        fuse::<K>(nodes, free, pair);
        return true;
    }
    if left {
        share::<K>(nodes, pair, to_left(ls, rs));
        return false;
    }
    share::<K>(nodes, pair, to_right(ls, rs));
    false
}
