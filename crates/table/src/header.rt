// What is known of a tree beside its table: where it begins, and which places are free.
use crate::free::Free;
use crate::subtree::Subtree;

#[derive(Clone, Copy, Debug, PartialEq, Eq)]
pub struct Header {
    pub top: Subtree,
    // how many points there are; with none there is no tree, which needs no `Option` at the top beside it
    pub count: u16,
    pub free: Free,
}
