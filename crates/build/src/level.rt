// One level of a tree: parents over all trees of one height, from the left, in a table that is lent:
// how large it is, is asked, and that the trees in it are sound.
ghost use Rattle.std.specs.Prelude.{◌≡◌, suc, ◌+◌, ◌*◌, ◌<◌, ◌≤◌, length};
ghost use Rattle.refusals.specs.Limits.{most_nodes};
ghost use Rattle.plain.specs.declared.point.Key.{Key};
ghost use Rattle.built.specs.Build.{group};
ghost use Rattle.table.specs.Kids.{kids_of};
ghost use Rattle.table.specs.Spares.{row};
ghost use Rattle.table.specs.Reading.{Sounds};
ghost use Rattle.build.specs.Stages.{trees_in, level_over};

use kinds::Kind;
use table::children::Children;
use table::node::Node;
use table::subtree::Subtree;
use tree::settle::settle;

// The trees of one height, at `count` places in a row from `first` on.
#[derive(Clone, Copy, Debug, PartialEq, Eq)]
pub struct Level {
    pub first: u16,
    pub count: u16,
    pub height: u8,
}

// How many of `left` trees the next parent takes, so that never one is left alone.
fn group_size(left: u16) -> u16
    ensures { result ≡ group left }
{
    match left {
        5 => 3,
        _ => left.min(4),
    }
}

// Children at `n` places in a row, from `p` on.
fn in_row(p: u16, n: u16) -> Children
    requires low { p ≤ most_nodes }
    requires few { n ≤ 4 }
    ensures { kids_of result ≡ row n p }
{
    Children::of(&[p, p + 1, p + 2, p + 3]).front(usize::from(n))
}

// Lays parents over the trees of a level, at the places after these. The answer is the level of
// the parents.
pub fn lay_level<K: Kind>(nodes: &mut [Node<K::Coordinate, K::Recorded>], level: Level) -> Level
    requires small { length nodes.old ≤ most_nodes }
    requires low { level.height < 255 }
    requires some { 2 ≤ level.count }
    requires room { 2 * (level.first + level.count) + level.count ≤ 2 * length nodes.old }
    requires sounds { Sounds (level.first + level.count) level.height (trees_in K.Kind.meaning nodes.old level.height level.count level.first) }
    ensures first { result.first ≡ level.first + level.count }
    ensures height { result.height ≡ suc level.height }
    ensures trees { (k : Key K.Coordinate) → trees_in K.Kind.meaning nodes.new (suc level.height) result.count (level.first + level.count) ≡ level_over K.Kind.meaning nodes.old level.height level.count level.first k }
{
    let next = level.first + level.count;
    let height = level.height + 1;
    let mut from = level.first;
    let mut made = 0;
    // no `for`: a parent takes two to four trees
    while from < next {
        let size = group_size(next - from);
        let root = next + made;
        settle::<K>(nodes, Subtree { root, height }, in_row(from, size));
        from += size;
        made += 1;
    }
    Level {
        first: next,
        count: made,
        height,
    }
}
