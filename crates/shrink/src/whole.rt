// A key is removed from the whole tree. `Free` is passed beside the table: a
// function of the tree takes the caller's table as a slice.
ghost use Rattle.std.specs.Prelude.{◌≡◌, ◌<◌, true};
ghost use Rattle.plain.specs.Set.{stands};
ghost use Rattle.plain.specs.Set.{remove as removed_from};
ghost use Rattle.tree.specs.Standing.{points_of, Standing, Ruled};
ghost use Rattle.shrink.specs.Lowers.{Lowerable, Lowered};

use crate::remove::remove_at;
use kinds::Kind;
use plain::Key;
use table::free::Free;
use table::header::Header;
use table::node::{Node, read};
use table::subtree::Subtree;
use tree::keep::take_out;
use tree::settle::seat_kept;

// A root with one child goes: that child is the root, and the point that the old one kept moves
// down. The tree that stands then.
fn lower<K: Kind>(
    nodes: &mut [Node<K::Coordinate, K::Recorded>],
    free: &mut Free,
    tree: Subtree,
) -> Subtree
    requires { Lowerable K.Kind.meaning nodes.old free.old tree.height tree.root }
    ensures { Lowered K.Kind.meaning nodes.old nodes.new free.old free.new tree.height tree.root result.height result.root }
{
    let n = read(nodes, tree.root);
    if n.children.len() >= 2 {
        return tree;
    }
    let root = n.children.at(0);
    let height = tree.height - 1;
    seat_kept::<K>(nodes, n.children, height, n);
    free.give(nodes, tree.root);
    Subtree { root, height }
}

// Removes the point of a key: it is not kept any more, and its leaf is gone.
// `Standing` is a premise: a function of the tree takes the caller's table as a slice, by a rule of the
// project. A struct of table and header can hold it in a ghost field (`tree/specs/Single.antt`).
pub fn remove<K: Kind>(
    nodes: &mut [Node<K::Coordinate, K::Recorded>],
    header: &mut Header,
    key: Key<K::Coordinate>,
)
    requires standing { Standing K.Kind.meaning nodes.old header.old }
    requires some { 0 < header.old.count }
    ensures standing { Standing K.Kind.meaning nodes.new header.new }
    ensures ruled { Ruled K.Kind.meaning nodes.old header.old → stands K.Kind.meaning key (points_of K.Kind.meaning nodes.old header.old) ≡ true → Ruled K.Kind.meaning nodes.new header.new × (points_of K.Kind.meaning nodes.new header.new ≡ removed_from K.Kind.meaning key (points_of K.Kind.meaning nodes.old header.old)) }
{
    let old = *header;
    let mut free = old.free;
    take_out::<K>(nodes, old.top, key);
    let top = if old.top.height == 0 {
        free.give(nodes, old.top.root);
        old.top
    } else {
        remove_at::<K>(nodes, &mut free, old.top, key);
        lower::<K>(nodes, &mut free, old.top)
    };
    *header = Header {
        top,
        count: old.count - 1,
        free,
    };
}
