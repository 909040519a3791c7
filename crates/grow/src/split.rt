// A full node and one child more: two nodes. `Sounds` is a premise: a fact about the table lent
// beside the trees.
ghost use Rattle.std.specs.Prelude.{◌≡◌, ◌<◌, [], ◌∷◌, length, take, drop};
ghost use Rattle.trees.specs.Tree.{grow};
ghost use Rattle.table.specs.Kids.{kids_of};
ghost use Rattle.table.specs.Reading.{kept_in, tree_at, Sounds};
ghost use Rattle.tree.specs.Forests.{Seated};
ghost use Rattle.grow.specs.Grown.{half};
ghost use Rattle.grow.specs.Split.{Apart, Split, with_next};

use kinds::Kind;
use table::children::{Children, Sides};
use table::node::Node;
use table::subtree::Subtree;
use tree::settle::{seat_kept, settle};

// Four children and `next` after number `i`: three on the left, two on the right.
pub fn halve(children: Children, i: usize, next: u16) -> Sides
    requires full { length (kids_of children) ≡ 4 }
    requires within { i < 4 }
    ensures left { kids_of result.left ≡ take half (with_next i next (kids_of children)) }
    ensures right { kids_of result.right ≡ drop half (with_next i next (kids_of children)) }
{
    if i < 2 {
        Sides {
            left: children.front(2).insert(i + 1, next),
            right: children.back(2),
        }
    } else {
        Sides {
            left: children.front(3),
            right: children.back(3).insert(i - 2, next),
        }
    }
}

// What a node kept goes to the one of two trees with its leaf.
fn seat_half<K: Kind>(
    nodes: &mut [Node<K::Coordinate, K::Recorded>],
    tree: Subtree,
    next: u16,
    node: Node<K::Coordinate, K::Recorded>,
)
    requires { Sounds (length nodes.old) tree.height (grow (tree_at K.Kind.meaning nodes.old tree.height) (tree.root ∷ next ∷ [])) }
    ensures { Seated K.Kind.meaning nodes.old nodes.new tree.height (tree.root ∷ next ∷ []) (kept_in K.Kind.meaning node) }
{
    seat_kept::<K>(nodes, Children::of(&[tree.root, next]), tree.height, node);
}

// Lays two nodes over the two parts; what the node kept goes to the half with its leaf.
pub fn split<K: Kind>(
    nodes: &mut [Node<K::Coordinate, K::Recorded>],
    tree: Subtree,
    next: u16,
    node: Node<K::Coordinate, K::Recorded>,
    halves: Sides,
)
    requires { Apart K.Kind.meaning nodes.old tree.height tree.root next (kids_of halves.left) (kids_of halves.right) }
    ensures { Split K.Kind.meaning nodes.old nodes.new tree.height tree.root next (kids_of halves.left) (kids_of halves.right) (kept_in K.Kind.meaning node) }
{
    settle::<K>(nodes, tree, halves.left);
    settle::<K>(nodes, Subtree { root: next, ..tree }, halves.right);
    seat_half::<K>(nodes, tree, next, node);
}
