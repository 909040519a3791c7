// A tree over leaves, level upon level, in a table that is lent: how large it is, is asked.
ghost use Rattle.std.specs.Prelude.{◌≡◌, suc, ◌+◌, ◌*◌, ◌<◌, ◌≤◌, length};
ghost use Rattle.refusals.specs.Limits.{most_nodes};
ghost use Rattle.plain.specs.declared.point.Key.{Key};
ghost use Rattle.trees.specs.Heap.{Good};
ghost use Rattle.tree.specs.Standing.{forest_of, points_of, Standing, Ruled};
ghost use Rattle.build.specs.Leaves.{laid_at, Leaves};
ghost use Rattle.build.specs.Stages.{headed, tree_over};

use crate::level::{Level, lay_level};
use kinds::Kind;
use table::free::Free;
use table::header::Header;
use table::node::Node;
use table::subtree::Subtree;

// The header of a tree of `count` points whose last level is `last`, of one tree or none.
fn header_of(last: Level, count: u16) -> Header
    requires { last.first + last.count < 65536 }
    ensures { result ≡ headed last.first last.count last.height count }
{
    Header {
        top: Subtree {
            root: last.first,
            height: last.height,
        },
        count,
        free: Free {
            head: 0,
            chained: 0,
            fresh: last.first + last.count,
        },
    }
}

// Builds a tree over the leaves at the first `count` places; the places after its last node are
// free.
pub fn build<K: Kind>(nodes: &mut [Node<K::Coordinate, K::Recorded>], count: u16) -> Header
    requires small { length nodes.old ≤ most_nodes }
    requires room { 2 * count ≤ suc (length nodes.old) }
    requires leaves { Leaves K.Kind.meaning nodes.old count }
    ensures standing { Standing K.Kind.meaning nodes.new result }
    ensures counted { result.count ≡ count }
    ensures tree { (k : Key K.Coordinate) → tree_over K.Kind.meaning nodes.old count k ≡ (forest_of K.Kind.meaning nodes.new result, result.top.height, result.free.fresh) }
    ensures points { points_of K.Kind.meaning nodes.new result ≡ laid_at K.Kind.meaning nodes.old count }
    ensures ruled { Good K.Kind.meaning (laid_at K.Kind.meaning nodes.old count) → Ruled K.Kind.meaning nodes.new result }
{
    let mut level = Level {
        first: 0,
        count,
        height: 0,
    };
    // Until one tree is left: no index is counted.
    while level.count > 1 {
        level = lay_level::<K>(nodes, level);
    }
    header_of(level, count)
}
