// A new leaf beside another. `Free` is passed beside the table: a function
// of the tree takes the caller's table as a slice.
ghost use Rattle.std.specs.Prelude.{Some};
ghost use Rattle.table.specs.Reading.{point_in};
ghost use Rattle.grow.specs.Grown.{Ready, Inserted};

use kinds::Kind;
use plain::key_order;
use table::children::Children;
use table::free::Free;
use table::node::{Node, Stored, read, write};

// Lays a leaf for `x` beside the leaf at a place, and says where the second of the two stands.
pub fn add_leaf<K: Kind>(
    nodes: &mut [Node<K::Coordinate, K::Recorded>],
    free: &mut Free,
    at: u16,
    x: Stored<K::Coordinate, K::Recorded>,
) -> u16
    requires { Ready K.Kind.meaning nodes.old free.old 0 at }
    ensures { Inserted K.Kind.meaning nodes.old nodes.new free.old free.new 0 at (point_in K.Kind.meaning x) (Some result) }
{
    let old = read(nodes, at);
    let next = free.take(nodes);
    let new = Node::bare(x, Children::none(0));
    if key_order::<K>(x.key(), old.own.key()).is_lt() {
        write(nodes, next, old);
        write(nodes, at, new);
        return next;
    }
    write(nodes, next, new);
    next
}
