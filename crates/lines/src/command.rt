// The commands that a line can give; patterns and thresholds are the bits of binary32 numbers. Plain
// numbers and no keys or windows: this crate stands on no other.
#[derive(Clone, Copy, Debug, PartialEq, Eq)]
pub enum Command {
    Insert {
        epoch: u64,
        number: u32,
        pattern: u32,
    },
    Change {
        epoch: u64,
        number: u32,
        pattern: u32,
    },
    Delete {
        epoch: u64,
        number: u32,
    },
    Sum {
        lo: u64,
        hi: u64,
    },
    First {
        lo: u64,
        hi: u64,
        places: u8,
    },
    Range {
        lo: u64,
        hi: u64,
        threshold: u32,
    },
}
