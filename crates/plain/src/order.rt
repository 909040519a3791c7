// The two orders of points.
ghost use Rattle.std.specs.Prelude.{◌≡◌};
ghost use Rattle.plain.specs.Points.{key_order, rank_order};

use crate::point::{Key, Point};
use kinds::Kind;
use std::cmp::Ordering;

// The earlier coordinate first, on a tie the smaller number.
pub fn key_order<K: Kind>(a: Key<K::Coordinate>, b: Key<K::Coordinate>) -> Ordering
    ensures { result ≡ key_order K.Kind.meaning a b }
{
    K::order(a.at, b.at).then(a.number.cmp(&b.number))
}

// The stronger weight first, on a tie key order.
pub fn rank_order<K: Kind>(
    p: Point<K::Coordinate, K::Weight>,
    q: Point<K::Coordinate, K::Weight>,
) -> Ordering
    ensures { result ≡ rank_order K.Kind.meaning p q }
{
    K::strength(p.weight, q.weight).then(key_order::<K>(p.key, q.key))
}
