// The range walk: what it lists and how many nodes it visits.
ghost use Rattle.std.specs.Prelude.{◌≡◌, ◌+◌, ◌^◌, ◌<◌, ◌≤◌, true, false, length, if◌then◌else◌, Some, MatchOption};
ghost use Rattle.plain.specs.Windows.{inside, reaches};
ghost use Rattle.walked.specs.Walk.{leads_on, visits, ranged};
ghost use Rattle.table.specs.Reading.{point_in, point_in_any, tree_of, Sound};
ghost use Rattle.walk.specs.Lists.{filled, noted};

use crate::pile::Pile;
use kinds::Kind;
use plain::{Point, Window, is_inside, is_reaching};
use table::node::{Node, Stored, read};
use table::subtree::Subtree;
use tree::search::point_of;

// What a node keeps, if it is not weaker than the threshold.
fn leading<K: Kind>(
    kept: Option<Stored<K::Coordinate, K::Recorded>>,
    threshold: K::Weight,
) -> Option<Stored<K::Coordinate, K::Recorded>>
    ensures { MatchOption result (leads_on K.Kind.meaning threshold (point_in_any K.Kind.meaning kept) ≡ false) (λ x. (kept ≡ Some x) × (reaches K.Kind.meaning (K.Kind.meaning.recalled x.weight) threshold ≡ true)) }
{
    kept.filter(|x| is_reaching::<K>(K::recall(x.weight), threshold))
}

// Lists a point if the list has a place left. The count is no length of the list: it goes on where
// the list is full.
fn note<C: Copy, W: Copy>(list: &mut [Point<C, W>], matches: usize, p: Point<C, W>)
    ensures { list.new ≡ noted list.old matches p }
{
    if matches < list.len() {
        list[matches] = p;
    }
}

// A kept point is listed if its coordinate is in the window; how many matches there are then.
fn visit<K: Kind>(
    x: Stored<K::Coordinate, K::Recorded>,
    bounds: Window<K::Coordinate>,
    list: &mut [Point<K::Coordinate, K::Weight>],
    matches: usize,
) -> usize
    requires { matches + 1 < 2 ^ 64 }
    ensures count { result ≡ (if inside K.Kind.meaning bounds.lower bounds.upper x.at then matches + 1 else matches) }
    ensures list { list.new ≡ (if inside K.Kind.meaning bounds.lower bounds.upper x.at then noted list.old matches (point_in K.Kind.meaning x) else list.old) }
{
    if !is_inside::<K>(bounds, x.at) {
        return matches;
    }
    note(list, matches, point_of::<K>(x));
    matches + 1
}

// The range walk from a root: the matches and the visited nodes. The list has the first matches of
// the walk, as many as it has places.
// `Sound` is a premise and no ghost field of the subtree: it is a fact about the table lent beside it.
pub fn range_walk<K: Kind>(
    nodes: &[Node<K::Coordinate, K::Recorded>],
    tree: Subtree,
    bounds: Window<K::Coordinate>,
    threshold: K::Weight,
    list: &mut [Point<K::Coordinate, K::Weight>],
) -> (usize, usize)
    requires sound { Sound (length nodes.now) tree.height (tree_of K.Kind.meaning nodes.now tree) }
    requires low { tree.height ≤ 14 }
    requires few { length (visits K.Kind.meaning bounds.lower bounds.upper threshold (tree_of K.Kind.meaning nodes.now tree)) < 2 ^ 32 }
    ensures counts { result ≡ (length (ranged K.Kind.meaning bounds.lower bounds.upper threshold (tree_of K.Kind.meaning nodes.now tree)), length (visits K.Kind.meaning bounds.lower bounds.upper threshold (tree_of K.Kind.meaning nodes.now tree))) }
    ensures list { list.new ≡ filled list.old (ranged K.Kind.meaning bounds.lower bounds.upper threshold (tree_of K.Kind.meaning nodes.now tree)) }
{
    let mut entries = [tree; 43];
    let mut stack = Pile {
        entries: &mut entries,
        depth: 1,
    };
    let mut matches = 0;
    // An answer, and the index of nothing.
    let mut visited = 0;
    // Until no entry is left: the walk puts entries where it takes them.
    while let Some(next) = stack.pop() {
        visited += 1;
        let node = read(nodes, next.root);
        if let Some(x) = leading::<K>(node.kept, threshold) {
            matches = visit::<K>(x, bounds, list, matches);
            if next.height > 0 {
                stack.push_open::<K>(nodes, node.children, next.height - 1, bounds);
            }
        }
    }
    (matches, visited)
}
