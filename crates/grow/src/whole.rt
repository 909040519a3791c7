// A point more in the whole tree, in a table that is lent: how large it is, is asked. `Free` is
// passed beside it: a function of the tree takes the caller's table as a slice.
ghost use Rattle.std.specs.Prelude.{◌≡◌, ℕ, suc, ◌*◌, ◌<◌, ◌≤◌, false, length};
ghost use Rattle.std.specs.List.{AllByRecursion};
ghost use Rattle.plain.specs.Points.{FitPoint};
ghost use Rattle.plain.specs.Set.{put, stands};
ghost use Rattle.refusals.specs.Limits.{most_nodes};
ghost use Rattle.trees.specs.Tree.{none, more};
ghost use Rattle.shapes.specs.Shape.{full, occurs};
ghost use Rattle.table.specs.Spares.{spares};
ghost use Rattle.table.specs.Reading.{point_in, tree_of};
ghost use Rattle.table.specs.Keys.{key_in};
ghost use Rattle.tree.specs.Standing.{points_of, Standing, Ruled};
ghost use Rattle.grow.specs.Grown.{Ready, most};
ghost use Rattle.grow.specs.Planted.{Planted};

use crate::insert::insert_at;
use kinds::Kind;
use table::children::Children;
use table::free::Free;
use table::header::Header;
use table::node::{Node, Stored, write};
use table::subtree::Subtree;
use tree::settle::{seat, settle};

// The first point.
fn plant<K: Kind>(
    nodes: &mut [Node<K::Coordinate, K::Recorded>],
    free: &mut Free,
    x: Stored<K::Coordinate, K::Recorded>,
) -> Subtree
    requires small { length nodes.old ≤ most_nodes }
    requires some { 0 < length (spares nodes.old free.old) }
    requires within { AllByRecursion (λ q. q < length nodes.old) (spares nodes.old free.old) }
    requires apart { (q : ℕ) → occurs q (spares nodes.old free.old) ≤ 1 }
    ensures { Planted K.Kind.meaning nodes.old nodes.new free.old free.new 0 none (point_in K.Kind.meaning x) result.height result.root }
{
    let root = free.take(nodes);
    let leaf = Node::bare(x, Children::none(0)).keeping(Some(x));
    write(nodes, root, leaf);
    Subtree { root, height: 0 }
}

// One point more than none: a leaf, a new root where the old one was split, and a node to keep it.
fn extend<K: Kind>(
    nodes: &mut [Node<K::Coordinate, K::Recorded>],
    free: &mut Free,
    top: Subtree,
    x: Stored<K::Coordinate, K::Recorded>,
) -> Subtree
    requires ready { Ready K.Kind.meaning nodes.old free.old top.height top.root }
    requires room { suc (suc (full (tree_of K.Kind.meaning nodes.old top) most)) ≤ length (spares nodes.old free.old) }
    requires low { top.height < 255 }
    ensures { Planted K.Kind.meaning nodes.old nodes.new free.old free.new top.height (more (tree_of K.Kind.meaning nodes.old top) none) (point_in K.Kind.meaning x) result.height result.root }
{
    let Some(q) = insert_at::<K>(nodes, free, top, x) else {
        seat::<K>(nodes, Children::of(&[top.root]), top.height, x);
        return top;
    };
    let above = Subtree {
        root: free.take(nodes),
        height: top.height + 1,
    };
    settle::<K>(nodes, above, Children::of(&[top.root, q]));
    seat::<K>(nodes, Children::of(&[above.root]), above.height, x);
    above
}

// Adds a point: the tree then holds it beside the others, and keeps it.
// `Standing` is a premise: a function of the tree takes the caller's table as a slice, by a rule of the
// project. A struct of table and header can hold it in a ghost field (`tree/specs/Single.antt`).
pub fn insert<K: Kind>(
    nodes: &mut [Node<K::Coordinate, K::Recorded>],
    header: &mut Header,
    x: Stored<K::Coordinate, K::Recorded>,
)
    requires standing { Standing K.Kind.meaning nodes.old header.old }
    requires room { 2 * suc header.old.count ≤ suc (length nodes.old) }
    ensures standing { Standing K.Kind.meaning nodes.new header.new }
    ensures ruled { Ruled K.Kind.meaning nodes.old header.old → FitPoint K.Kind.meaning (point_in K.Kind.meaning x) → stands K.Kind.meaning (key_in x) (points_of K.Kind.meaning nodes.old header.old) ≡ false → Ruled K.Kind.meaning nodes.new header.new × (points_of K.Kind.meaning nodes.new header.new ≡ put K.Kind.meaning (point_in K.Kind.meaning x) (points_of K.Kind.meaning nodes.old header.old)) }
{
    let old = *header;
    let mut free = old.free;
    let top = if old.count == 0 {
        plant::<K>(nodes, &mut free, x)
    } else {
        extend::<K>(nodes, &mut free, old.top, x)
    };
    *header = Header {
        top,
        count: old.count + 1,
        free,
    };
}
