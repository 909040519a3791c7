// Whether a point stands in some trees of one height, which have no root in common.
ghost use Rattle.std.specs.Prelude.{◌≡◌, true};
ghost use Rattle.std.specs.List.{Contains};
ghost use Rattle.trees.specs.Tree.{grow, points_all};
ghost use Rattle.table.specs.Reading.{point_in, tree_at};

use crate::reading::node_at;
use kinds::Kind;
use table::node::{Node, Stored};

// Whether a point stands at a leaf of some trees of one height.
pub fn has_point<K: Kind<Coordinate = u64, Recorded = u32>>(
    nodes: &[Node<u64, u32>],
    places: &[u16],
    height: u8,
    x: Stored<u64, u32>,
) -> bool
    ensures { result ≡ true → Contains (points_all (grow (tree_at K.Kind.meaning nodes.now height) places.now)) (point_in K.Kind.meaning x) }
{
    let [first, rest @ ..] = places else {
        return false;
    };
    let Some(n) = node_at(nodes, *first) else {
        return false;
    };
    if height == 0 {
        if n.own == x {
            return true;
        }
    } else if has_point::<K>(nodes, n.children.as_slice(), height - 1, x) {
        return true;
    }
    has_point::<K>(nodes, rest, height, x)
}
