// The way down the tree: which child to go to. That there are children, in the table, is asked: the
// table is lent beside them, and a leaf has none.
ghost use Rattle.std.specs.Prelude.{◌≡◌, ◌<◌, length, if◌then◌else◌};
ghost use Rattle.std.specs.List.{slice_get, AllByRecursion};
ghost use Rattle.std.specs.Ordering.{is_lt};
ghost use Rattle.plain.specs.Points.{rank_order};
ghost use Rattle.trees.specs.Kept.{leads, is_before};
ghost use Rattle.table.specs.Kids.{kids_of};
ghost use Rattle.table.specs.Reading.{point_in, kept_in};
ghost use Rattle.table.specs.Keys.{key_in};
ghost use Rattle.tree.specs.Places.{key_at, pick_at, best_at};

use kinds::Kind;
use plain::{Key, Point, key_order, rank_order};
use table::children::Children;
use table::node::{Node, Stored, read};

// A stored point, its weight recalled.
pub fn point_of<K: Kind>(s: Stored<K::Coordinate, K::Recorded>) -> Point<K::Coordinate, K::Weight>
    ensures { result ≡ point_in K.Kind.meaning s }
{
    Point {
        key: s.key(),
        weight: K::recall(s.weight),
    }
}

// Whether `x` comes before `y` in rank order.
pub fn outranks<K: Kind>(
    x: Stored<K::Coordinate, K::Recorded>,
    y: Stored<K::Coordinate, K::Recorded>,
) -> bool
    ensures { result ≡ is_lt (rank_order K.Kind.meaning (point_in K.Kind.meaning x) (point_in K.Kind.meaning y)) }
{
    rank_order::<K>(point_of::<K>(x), point_of::<K>(y)).is_lt()
}

// Whether the point that `a` keeps leads: `b` keeps none, or one that comes after it in rank.
pub fn leads_over<K: Kind>(
    a: Node<K::Coordinate, K::Recorded>,
    b: Node<K::Coordinate, K::Recorded>,
) -> bool
    ensures { result ≡ leads K.Kind.meaning (kept_in K.Kind.meaning a) (kept_in K.Kind.meaning b) }
{
    match (a.kept, b.kept) {
        (None, _) => false,
        (Some(_), None) => true,
        (Some(x), Some(y)) => outranks::<K>(x, y),
    }
}

// Whether a key comes before the one that the node at a place records.
fn is_before<K: Kind>(
    nodes: &[Node<K::Coordinate, K::Recorded>],
    p: u16,
    key: Key<K::Coordinate>,
) -> bool
    requires { p < length nodes.now }
    ensures { result ≡ is_before K.Kind.meaning key (key_at nodes.now p) }
{
    let node = read(nodes, p);
    key_order::<K>(key, node.own.key()).is_lt()
}

// The number of the child on the way to a key.
pub fn pick_child<K: Kind>(
    nodes: &[Node<K::Coordinate, K::Recorded>],
    children: Children,
    key: Key<K::Coordinate>,
) -> usize
    requires within { AllByRecursion (λ q. q < length nodes.now) (kids_of children) }
    requires some { 0 < length (kids_of children) }
    ensures is { result ≡ pick_at K.Kind.meaning nodes.now key (kids_of children) }
    ensures below { result < length (kids_of children) }
{
    let [_, later @ ..] = children.as_slice() else {
        unreachable!();
    };
    // No `position`: its closure would owe at each turn that the place is in the table.
    for (i, p) in later.iter().enumerate() {
        if is_before::<K>(nodes, *p, key) {
            return i;
        }
    }
    later.len()
}

// Of two children the one whose kept point leads; where neither does, the first.
fn better<K: Kind>(
    best: (usize, Node<K::Coordinate, K::Recorded>),
    next: (usize, Node<K::Coordinate, K::Recorded>),
) -> (usize, Node<K::Coordinate, K::Recorded>)
    ensures { result ≡ (if leads K.Kind.meaning (kept_in K.Kind.meaning next.1) (kept_in K.Kind.meaning best.1) then next else best) }
{
    if leads_over::<K>(next.1, best.1) {
        next
    } else {
        best
    }
}

// The number of the child that keeps the first point in rank order.
pub fn best_child<K: Kind>(nodes: &[Node<K::Coordinate, K::Recorded>], children: Children) -> usize
    requires within { AllByRecursion (λ q. q < length nodes.now) (kids_of children) }
    requires some { 0 < length (kids_of children) }
    ensures is { result ≡ best_at K.Kind.meaning nodes.now (kids_of children) }
    ensures below { result < length (kids_of children) }
{
    let [first, others @ ..] = children.as_slice() else {
        unreachable!();
    };
    let mut best = (0, read(nodes, *first));
    for (i, p) in others.iter().enumerate() {
        best = better::<K>(best, (i + 1, read(nodes, *p)));
    }
    best.0
}
