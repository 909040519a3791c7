// A stack in a slice.
ghost use Rattle.std.specs.Prelude.{◌≤◌, length};

use table::subtree::Subtree;

// The first `depth` places of a slice are taken. No `Vec`: nothing is allocated, and the slice is the
// array of a range walk or the caller's frontier.
#[derive(Drop)]
pub struct Pile<'a> {
    pub entries: &'a mut [Subtree],
    pub depth: usize,
    ghost inside: { depth ≤ length entries.now },
}
