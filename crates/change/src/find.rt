// The weight of a key, looked up in the tree.
ghost use Rattle.std.specs.Prelude.{◌≡◌, length, if◌then◌else◌, Some, None};
ghost use Rattle.std.specs.Ordering.{is_eq};
ghost use Rattle.plain.specs.Points.{key_order};
ghost use Rattle.plain.specs.Set.{weight_at};
ghost use Rattle.trees.specs.Kept.{found};
ghost use Rattle.table.specs.Reading.{tree_of, Sound};
ghost use Rattle.table.specs.Keys.{key_in};
ghost use Rattle.tree.specs.Standing.{points_of, Standing, Ruled};

use kinds::Kind;
use plain::{Key, key_order};
use table::header::Header;
use table::node::{Node, Stored, read};
use table::subtree::Subtree;
use tree::search::pick_child;

// The weight of a stored point, if the key is that of the point.
fn weight_if<K: Kind>(
    s: Stored<K::Coordinate, K::Recorded>,
    key: Key<K::Coordinate>,
) -> Option<K::Weight>
    ensures { result ≡ (if is_eq (key_order K.Kind.meaning key (key_in s)) then Some (K.Kind.meaning.recalled s.weight) else None) }
{
    key_order::<K>(key, s.key())
        .is_eq()
        .then(|| K::recall(s.weight))
}

// The weight at the leaf on the way to a key, if the leaf has that key.
// `Sound` is a premise and no ghost field of the subtree: it is a fact about the table lent beside it.
pub fn find_below<K: Kind>(
    nodes: &[Node<K::Coordinate, K::Recorded>],
    tree: Subtree,
    key: Key<K::Coordinate>,
) -> Option<K::Weight>
    requires { Sound (length nodes.now) tree.height (tree_of K.Kind.meaning nodes.now tree) }
    ensures { result ≡ found K.Kind.meaning tree.height key (tree_of K.Kind.meaning nodes.now tree) }
{
    let n = read(nodes, tree.root);
    if tree.height == 0 {
        return weight_if::<K>(n.own, key);
    }
    let i = pick_child::<K>(nodes, n.children, key);
    let child = Subtree {
        root: n.children.at(i),
        height: tree.height - 1,
    };
    find_below::<K>(nodes, child, key)
}

// The weight of a key, if the key stands.
// `Standing` is a premise: a function of the tree takes the caller's table as a slice, by a rule of the
// project. A struct of table and header can hold it in a ghost field (`tree/specs/Single.antt`).
pub fn find<K: Kind>(
    nodes: &[Node<K::Coordinate, K::Recorded>],
    header: Header,
    key: Key<K::Coordinate>,
) -> Option<K::Weight>
    requires { Standing K.Kind.meaning nodes.now header }
    ensures none { header.count ≡ 0 → result ≡ None }
    ensures weight { Ruled K.Kind.meaning nodes.now header → result ≡ weight_at K.Kind.meaning key (points_of K.Kind.meaning nodes.now header) }
{
    if header.count == 0 {
        return None;
    }
    find_below::<K>(nodes, header.top, key)
}
