// The rules of the tree, tested node by node, in trees of one height, which have no root in common.
ghost use Rattle.std.specs.Prelude.{◌≡◌, true, Some, None};
ghost use Rattle.plain.specs.Points.{FitPoint};
ghost use Rattle.std.specs.List.{Contains, AllByRecursion};
ghost use Rattle.std.specs.Option.{option_to_list};
ghost use Rattle.trees.specs.Tree.{grow, points_all};
ghost use Rattle.table.specs.Kids.{kids_of};
ghost use Rattle.table.specs.Reading.{point_in, kept_in, tree_at};
ghost use Rattle.table.specs.Keys.{key_in};
ghost use Rattle.checker.specs.Passes.{next_at, Under, Follows, kept_over, LeafPasses, ForkPasses, PassesAll};
ghost use Rattle.checker.specs.Checked.{Checked};

use crate::count::count_all;
use crate::points::has_point;
use crate::reading::{next_key, node_at};
use kinds::Kind;
use plain::{Key, key_order};
use table::header::Header;
use table::node::{Node, Stored};
use tree::search::leads_over;

// Whether what a node keeps, if anything, comes after what the node above it keeps in rank.
fn follows<K: Kind>(
    above: Option<Node<K::Coordinate, K::Recorded>>,
    n: Node<K::Coordinate, K::Recorded>,
) -> bool
    ensures { result ≡ true → Follows K.Kind.meaning (kept_over K.Kind.meaning above) (kept_in K.Kind.meaning n) }
{
    n.kept.is_none() || above.is_none_or(|parent| leads_over::<K>(parent, n))
}

// Whether a key is before the end, if there is one.
fn is_under<K: Kind>(end: Option<Key<K::Coordinate>>, key: Key<K::Coordinate>) -> bool
    ensures { result ≡ true → Under K.Kind.meaning end key }
{
    end.is_none_or(|last| key_order::<K>(key, last).is_lt())
}

// Whether a stored point is fit.
fn is_fit<K: Kind>(x: Stored<K::Coordinate, K::Recorded>) -> bool
    ensures { result ≡ K.Kind.meaning.fit x.at (K.Kind.meaning.recalled x.weight) }
{
    K::is_fit(x.at, K::recall(x.weight))
}

// Whether a leaf passes: its point is fit and before the end, and it keeps no other.
fn leaf_passes<K: Kind<Coordinate = u64, Recorded = u32>>(
    n: Node<u64, u32>,
    end: Option<Key<u64>>,
) -> bool
    ensures { result ≡ true → LeafPasses K.Kind.meaning (point_in K.Kind.meaning n.own) (kept_in K.Kind.meaning n) end }
{
    is_fit::<K>(n.own) && is_under::<K>(end, n.own.key()) && n.kept.is_none_or(|x| x == n.own)
}

// Whether the first child of a node records the node's own key.
fn heads<K: Kind>(
    nodes: &[Node<K::Coordinate, K::Recorded>],
    n: Node<K::Coordinate, K::Recorded>,
) -> bool
    ensures { result ≡ true → next_at nodes.now (kids_of n.children) None ≡ Some (key_in n.own) }
{
    let Some(key) = next_key(nodes, n.children.as_slice(), None) else {
        return false;
    };
    key_order::<K>(key, n.own.key()).is_eq()
}

// Whether what a node keeps, if anything, is a point of its children, which are of a height.
fn keeps_own<K: Kind<Coordinate = u64, Recorded = u32>>(
    nodes: &[Node<u64, u32>],
    n: Node<u64, u32>,
    height: u8,
) -> bool
    ensures { result ≡ true → AllByRecursion (Contains (points_all (grow (tree_at K.Kind.meaning nodes.now height) (kids_of n.children)))) (option_to_list (kept_in K.Kind.meaning n)) }
{
    n.kept.is_none_or(|x| has_point::<K>(nodes, n.children.as_slice(), height, x))
}

// Whether a node passes that stands over children of a height: it has 2 to 4 of them, the first
// has its key, and it keeps one of their points, if any.
fn fork_passes<K: Kind<Coordinate = u64, Recorded = u32>>(
    nodes: &[Node<u64, u32>],
    n: Node<u64, u32>,
    height: u8,
) -> bool
    ensures { result ≡ true → ForkPasses K.Kind.meaning (key_in n.own) (kept_in K.Kind.meaning n) (grow (tree_at K.Kind.meaning nodes.now height) (kids_of n.children)) }
{
    n.children.len() >= 2 && heads::<K>(nodes, n) && keeps_own::<K>(nodes, n, height)
}

// Whether some trees of one height pass, below a node, if there is one, and with an end for their
// keys.
pub fn pass_all<K: Kind<Coordinate = u64, Recorded = u32>>(
    nodes: &[Node<u64, u32>],
    places: &[u16],
    above: Option<Node<u64, u32>>,
    end: Option<Key<u64>>,
    height: u8,
) -> bool
    ensures { result ≡ true → PassesAll K.Kind.meaning (grow (tree_at K.Kind.meaning nodes.now height) places.now) (kept_over K.Kind.meaning above) end height }
{
    let [first, rest @ ..] = places else {
        return true;
    };
    let Some(n) = node_at(nodes, *first) else {
        return false;
    };
    if !follows::<K>(above, n) {
        return false;
    }
    if !pass_all::<K>(nodes, rest, above, end, height) {
        return false;
    }
    let next = next_key(nodes, rest, end);
    if height == 0 {
        return leaf_passes::<K>(n, next);
    }
    if !fork_passes::<K>(nodes, n, height - 1) {
        return false;
    }
    pass_all::<K>(nodes, n.children.as_slice(), Some(n), next, height - 1)
}

// Whether the tree that a header names in a table keeps all the rules, each point kept once among
// them. Nothing is asked of the table or of the header.
pub fn holds_rules<K: Kind<Coordinate = u64, Recorded = u32>>(
    nodes: &[Node<u64, u32>],
    header: Header,
) -> bool
    ensures { result ≡ true → Checked K.Kind.meaning nodes.now header }
{
    if header.count == 0 {
        return true;
    }
    let root = [header.top.root];
    if !pass_all::<K>(nodes, &root, None, None, header.top.height) {
        return false;
    }
    let Some(counts) = count_all::<K>(nodes, &root, header.top.height) else {
        return false;
    };
    counts.points == header.count && counts.kept == header.count
}
