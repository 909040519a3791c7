// How a table is read where nothing is known of it. Trees of one height are their places, as a slice,
// and that height: each has a root of its own.
ghost use Rattle.std.specs.Prelude.{◌≡◌};
ghost use Rattle.std.specs.List.{slice_get};
ghost use Rattle.checker.specs.Passes.{next_at};

use plain::Key;
use table::node::Node;

// The node at a place, if the place is in the table.
pub fn node_at<C: Copy, R: Copy>(nodes: &[Node<C, R>], p: u16) -> Option<Node<C, R>>
    ensures { result ≡ slice_get nodes.now p }
{
    nodes.get(usize::from(p)).copied()
}

// The key that the first of some trees records, or else the key given for the end.
pub fn next_key<C: Copy, R: Copy>(
    nodes: &[Node<C, R>],
    places: &[u16],
    end: Option<Key<C>>,
) -> Option<Key<C>>
    ensures { result ≡ next_at nodes.now places.now end }
{
    let [first, ..] = places else {
        return end;
    };
    let n = node_at(nodes, *first)?;
    Some(n.own.key())
}
