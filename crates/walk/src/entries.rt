// Trees that a walk has yet to go to, kept as a stack: the entry that joined last is taken first. The
// children of a node are trees of one height, each with a root of its own, in a table that is lent.
ghost use Rattle.std.specs.Prelude.{◌≡◌, ◌+◌, ◌<◌, ◌≤◌, not, [], ◌∷◌, ◌++◌, length, MatchOption};
ghost use Rattle.std.specs.List.{AllByRecursion};
ghost use Rattle.plain.specs.Windows.{later};
ghost use Rattle.table.specs.Kids.{kids_of};
ghost use Rattle.walk.specs.Entries.{pile, open_entries};
ghost use Rattle.walk.specs.Piles.{pile_of};

use crate::pile::Pile;
use kinds::Kind;
use plain::{Window, is_later};
use table::children::Children;
use table::node::{Node, read};
use table::subtree::Subtree;

impl<'a> Pile<'a> {
    // Puts an entry on top.
    pub fn push(&mut self, entry: Subtree)
        requires { self.old.depth < length self.old.entries.now }
        ensures pile { pile_of self.new ≡ entry ∷ pile_of self.old }
        ensures depth { self.new.depth ≡ self.old.depth + 1 }
        ensures places { length self.new.entries.now ≡ length self.old.entries.now }
        ensures same_slice { self.new.entries.ghost_name ≡ self.old.entries.ghost_name }
    {
        self.entries[self.depth] = entry;
        self.depth += 1;
    }

    // Puts an entry on top of the first `top`.
    fn put(&mut self, top: usize, entry: Subtree)
        requires { top < length self.old.entries.now }
        ensures pile { pile self.new.entries.now (top + 1) ≡ entry ∷ pile self.old.entries.now top }
        ensures places { length self.new.entries.now ≡ length self.old.entries.now }
        ensures same_slice { self.new.entries.ghost_name ≡ self.old.entries.ghost_name }
    {
        self.entries[top] = entry;
    }

    // Takes the entry on top, if there is one.
    pub fn pop(&mut self) -> Option<Subtree>
        ensures pile { MatchOption result (pile_of self.old ≡ []) (λ e. pile_of self.old ≡ e ∷ pile_of self.new) }
        ensures depth { MatchOption result (self.old.depth ≡ 0) (λ e. self.old.depth ≡ self.new.depth + 1) }
        ensures places { length self.new.entries.now ≡ length self.old.entries.now }
        ensures same_slice { self.new.entries.ghost_name ≡ self.old.entries.ghost_name }
    {
        if self.depth == 0 {
            return None;
        }
        self.depth -= 1;
        Some(self.entries[self.depth])
    }

    // Puts the children that are open to a window on top, from the right. A child is open if its
    // coordinate is not later than the upper bound, and it is the last, or that of its right
    // sibling is not earlier than the lower one.
    pub fn push_open<K: Kind>(
        &mut self,
        nodes: &[Node<K::Coordinate, K::Recorded>],
        children: Children,
        height: u8,
        bounds: Window<K::Coordinate>,
    )
        requires within { AllByRecursion (λ q. q < length nodes.now) (kids_of children) }
        requires room { self.old.depth + length (open_entries K.Kind.meaning nodes.now height bounds.lower bounds.upper (kids_of children)) ≤ length self.old.entries.now }
        ensures pile { pile_of self.new ≡ open_entries K.Kind.meaning nodes.now height bounds.lower bounds.upper (kids_of children) ++ pile_of self.old }
        ensures depth { self.new.depth ≡ self.old.depth + length (open_entries K.Kind.meaning nodes.now height bounds.lower bounds.upper (kids_of children)) }
        ensures places { length self.new.entries.now ≡ length self.old.entries.now }
        ensures same_slice { self.new.entries.ghost_name ≡ self.old.entries.ghost_name }
    {
        let Window { lower, upper } = bounds;
        let depth = self.depth;
        let mut top = depth;
        let mut reaching = true;
        // By number: of `iter().rev()` a proof knows the items so far, and not those left.
        for i in (0..children.len()).rev() {
            let root = children.at(i);
            let at = read(nodes, root).own.at;
            if starts_by::<K>(at, upper) & reaching {
                self.put(top, Subtree { root, height });
                top += 1;
            }
            reaching = starts_from::<K>(at, lower);
        }
        self.depth = top;
    }
}

// Two functions, though one with its arguments exchanged would do: a slip in either shows at that
// function, and not in the proof of the loop.
//
// Whether a coordinate is not later than the upper bound.
fn starts_by<K: Kind>(at: K::Coordinate, upper: K::Coordinate) -> bool
    ensures { result ≡ not (later K.Kind.meaning at upper) }
{
    !is_later::<K>(at, upper)
}

// Whether a coordinate is not earlier than the lower bound.
fn starts_from<K: Kind>(at: K::Coordinate, lower: K::Coordinate) -> bool
    ensures { result ≡ not (later K.Kind.meaning lower at) }
{
    !is_later::<K>(lower, at)
}
