// How many points there are in a tree, and how many are kept; of trees of one height, which have no
// root in common.
ghost use Rattle.std.specs.Prelude.{◌≡◌, length};
ghost use Rattle.std.specs.Option.{option_to_list};
ghost use Rattle.trees.specs.Tree.{grow};
ghost use Rattle.table.specs.Reading.{tree_at};
ghost use Rattle.checker.specs.Counted.{Added, Counted};

use crate::reading::node_at;
use kinds::Kind;
use table::node::Node;

#[derive(Clone, Copy, Debug, PartialEq, Eq)]
pub struct Counts {
    pub points: u16,
    pub kept: u16,
}

// More points than a table has room for.
const MANY: u16 = 32768;

// What one node adds: its own point, at a leaf, and the point that it keeps.
fn own_counts<C: Copy, R: Copy>(n: Node<C, R>, points: u16) -> Counts
    ensures points { result.points ≡ points }
    ensures kept { result.kept ≡ length (option_to_list n.kept) }
{
    Counts {
        points,
        kept: u16::from(n.kept.is_some()),
    }
}

// Two counts together, unless one is too large for any table.
fn added(a: Counts, b: Counts) -> Option<Counts>
    ensures { Added a b result }
{
    if a.points.max(b.points) >= MANY || a.kept.max(b.kept) >= MANY {
        return None;
    }
    Some(Counts {
        points: a.points + b.points,
        kept: a.kept + b.kept,
    })
}

// The counts of some trees of one height, if all their places are in the table.
pub fn count_all<K: Kind>(
    nodes: &[Node<K::Coordinate, K::Recorded>],
    places: &[u16],
    height: u8,
) -> Option<Counts>
    ensures { Counted (grow (tree_at K.Kind.meaning nodes.now height) places.now) result }
{
    let [first, rest @ ..] = places else {
        return Some(Counts { points: 0, kept: 0 });
    };
    let n = node_at(nodes, *first)?;
    let after = count_all::<K>(nodes, rest, height)?;
    if height == 0 {
        return added(own_counts(n, 1), after);
    }
    let below = count_all::<K>(nodes, n.children.as_slice(), height - 1)?;
    let all = added(below, after)?;
    added(own_counts(n, 0), all)
}
