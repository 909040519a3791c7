// Leaves laid down one by one.
ghost use Rattle.std.specs.Prelude.{◌≡◌, ℕ, ◌<◌, length, Some, ◌≢◌};
ghost use Rattle.std.specs.List.{slice_get};
ghost use Rattle.trees.specs.Tree.{leaf};
ghost use Rattle.table.specs.Reading.{point_in, tree_at};

use kinds::Kind;
use table::children::Children;
use table::node::{Node, Stored, write};

// A leaf for a point, which keeps it. Three calls, under a promise of their own that `lay_leaf` stands on.
fn leaf_for<C: Copy, R: Copy>(x: Stored<C, R>) -> Node<C, R>
    ensures own { result.own ≡ x }
    ensures kept { result.kept ≡ Some x }
{
    Node::bare(x, Children::none(0)).keeping(Some(x))
}

// Lays a leaf for a point, which keeps it.
pub fn lay_leaf<K: Kind>(
    nodes: &mut [Node<K::Coordinate, K::Recorded>],
    at: u16,
    x: Stored<K::Coordinate, K::Recorded>,
)
    requires { at < length nodes.old }
    ensures tree { tree_at K.Kind.meaning nodes.new 0 at ≡ leaf at (point_in K.Kind.meaning x) (Some (point_in K.Kind.meaning x)) }
    ensures frame { (q : ℕ) → (q ≢ at) → slice_get nodes.new q ≡ slice_get nodes.old q }
{
    write(nodes, at, leaf_for(x));
}
