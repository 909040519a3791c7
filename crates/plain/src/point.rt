// A point has a key and a weight; its key is a coordinate with a number.
#[derive(Clone, Copy, PartialEq, Eq, PartialOrd, Ord, Hash, Debug)]
pub struct Key<C> {
    pub at: C,
    pub number: u32,
}

#[derive(Clone, Copy, PartialEq, Eq, Debug)]
pub struct Point<C, W> {
    pub key: Key<C>,
    pub weight: W,
}
