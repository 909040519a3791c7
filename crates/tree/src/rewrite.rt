// Nodes over other children. That there is a child, in the table, is asked: a leaf has none.
ghost use Rattle.std.specs.Prelude.{◌<◌, length, slice_index};
ghost use Rattle.table.specs.Kids.{kids_of};
ghost use Rattle.tree.specs.Rewritten.{Rewritten};

use table::children::Children;
use table::node::{Node, read, write};

// Writes a node again over other children, with the key of the first.
pub fn rewrite<C: Copy, R: Copy>(
    nodes: &mut [Node<C, R>],
    at: u16,
    node: Node<C, R>,
    children: Children,
)
    requires within { at < length nodes.old }
    requires some { 0 < length (kids_of children) }
    requires first { slice_index (kids_of children) 0 < length nodes.old }
    ensures { Rewritten nodes.old nodes.new at node children }
{
    let first = read(nodes, children.at(0));
    write(nodes, at, node.over(first.own, children));
}
