// A tree in a table, by where its root stands and how high it is. A child's is written as a literal:
// its fields compute in a proof, and those of a call would not.
#[derive(Clone, Copy, Debug, PartialEq, Eq)]
pub struct Subtree {
    pub root: u16,
    pub height: u8,
}
