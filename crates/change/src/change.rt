// Another weight for the point of a key.
ghost use Rattle.std.specs.Prelude.{◌≡◌, ◌<◌, true, T, length};
ghost use Rattle.plain.specs.Set.{reweigh, stands};
ghost use Rattle.trees.specs.Moves.{with_weight};
ghost use Rattle.table.specs.Reading.{tree_of, Sound, Became};
ghost use Rattle.tree.specs.Standing.{forest_of, points_of, Standing, Ruled};
ghost use Rattle.change.specs.Weighed.{reweighed};

use kinds::Kind;
use plain::Key;
use table::header::Header;
use table::node::{Node, Stored};
use table::subtree::Subtree;
use tree::keep::{push, take_out, weigh};

// The point of a key and a weight, as a node stores it: a function and no `From`, as one caller needs
// it.
fn stored<C: Copy, R: Copy>(key: Key<C>, weight: R) -> Stored<C, R>
    ensures { result ≡ record { at = key.at; number = key.number; weight = weight } }
{
    Stored {
        at: key.at,
        number: key.number,
        weight,
    }
}

// In one tree: the point of a key is taken out, its leaf gets the weight, and it is kept again.
// `Sound` is a premise and no ghost field of the subtree: it is a fact about the table lent beside it.
fn reweigh_below<K: Kind>(
    nodes: &mut [Node<K::Coordinate, K::Recorded>],
    tree: Subtree,
    key: Key<K::Coordinate>,
    weight: K::Recorded,
)
    requires { Sound (length nodes.old) tree.height (tree_of K.Kind.meaning nodes.old tree) }
    ensures { Became K.Kind.meaning nodes.old nodes.new tree.height tree.root (reweighed K.Kind.meaning tree.height key (K.Kind.meaning.recalled weight) (tree_of K.Kind.meaning nodes.old tree)) }
{
    take_out::<K>(nodes, tree, key);
    weigh::<K>(nodes, tree, key, weight);
    push::<K>(nodes, tree, stored(key, weight));
}

// The point of a key gets another weight.
// `Standing` is a premise: a function of the tree takes the caller's table as a slice, by a rule of the
// project. A struct of table and header can hold it in a ghost field (`tree/specs/Single.antt`).
pub fn change<K: Kind>(
    nodes: &mut [Node<K::Coordinate, K::Recorded>],
    header: Header,
    key: Key<K::Coordinate>,
    weight: K::Recorded,
)
    requires standing { Standing K.Kind.meaning nodes.old header }
    requires some { 0 < header.count }
    ensures standing { Standing K.Kind.meaning nodes.new header }
    ensures tree { forest_of K.Kind.meaning nodes.new header ≡ with_weight K.Kind.meaning header.top.height key (K.Kind.meaning.recalled weight) (forest_of K.Kind.meaning nodes.old header) }
    ensures ruled { Ruled K.Kind.meaning nodes.old header → stands K.Kind.meaning key (points_of K.Kind.meaning nodes.old header) ≡ true → T (K.Kind.meaning.fit key.at (K.Kind.meaning.recalled weight)) → Ruled K.Kind.meaning nodes.new header × (points_of K.Kind.meaning nodes.new header ≡ reweigh K.Kind.meaning key (K.Kind.meaning.recalled weight) (points_of K.Kind.meaning nodes.old header)) }
{
    reweigh_below::<K>(nodes, header.top, key, weight);
}
