// The places of a table that hold no node of the tree: some are chained, each with the place of
// the next, and those from `fresh` on were never used. The chain lies in the nodes themselves: a
// table has a fixed size, and nothing else to keep it in. The slice is passed beside it: functions of
// the tree take the caller's table as a slice.
ghost use Rattle.std.specs.Prelude.{◌≡◌, ℕ, ◌+◌, ◌<◌, ◌≤◌, ◌∷◌, length, Some, ◌≢◌};
ghost use Rattle.std.specs.List.{slice_get, AllByRecursion};
ghost use Rattle.table.specs.Spares.{link_of, spares};

use crate::children::Children;
use crate::node::{Node, read, write};

#[derive(Clone, Copy, Debug, PartialEq, Eq)]
pub struct Free {
    pub head: u16,
    pub chained: u16,
    pub fresh: u16,
}

// The place that a free node names as the next.
fn link<C: Copy, R: Copy>(node: Node<C, R>) -> u16
    ensures { result ≡ link_of (Some node) }
{
    node.children.places[0]
}

impl Free {
    // Takes the next free place.
    pub fn take<C: Copy, R: Copy>(&mut self, nodes: &[Node<C, R>]) -> u16
        requires some { 0 < length (spares nodes.now self.old) }
        requires within { AllByRecursion (λ q. q < length nodes.now) (spares nodes.now self.old) }
        requires small { length nodes.now ≤ 32767 }
        ensures { spares nodes.now self.old ≡ result ∷ spares nodes.now self.new }
    {
        if self.chained > 0 {
            let p = self.head;
            self.head = link(read(nodes, p));
            self.chained -= 1;
            return p;
        }
        let p = self.fresh;
        self.fresh += 1;
        p
    }

    // Gives a place back: it is the next to be taken.
    pub fn give<C: Copy, R: Copy>(&mut self, nodes: &mut [Node<C, R>], p: u16)
        requires within { p < length nodes.old }
        requires apart { AllByRecursion (λ q. q ≢ p) (spares nodes.old self.old) }
        requires room { length (spares nodes.old self.old) < 65535 }
        ensures spares { spares nodes.new self.new ≡ p ∷ spares nodes.old self.old }
        ensures frame { (q : ℕ) → (q ≢ p) → slice_get nodes.new q ≡ slice_get nodes.old q }
    {
        let node = linked(read(nodes, p), self.head);
        write(nodes, p, node);
        *self = self.headed(p);
    }

    // The free places after `p`, which names the head, has joined them.
    fn headed(self, p: u16) -> Free
        requires { self.chained < 65535 }
        ensures { result ≡ record { head = p; chained = self.chained + 1; fresh = self.fresh } }
    {
        Free {
            head: p,
            chained: self.chained + 1,
            fresh: self.fresh,
        }
    }
}

// A free node, with the place of the next.
fn linked<C: Copy, R: Copy>(node: Node<C, R>, next: u16) -> Node<C, R>
    ensures { link_of (Some result) ≡ next }
{
    Node::bare(node.own, Children::none(next))
}
