// The longest script, and one that is too long.
use crate::prints::gives;
use std::alloc::{AllocError, Global};
use std::test::Fail;

// A readable line, and an unreadable one of so many bytes.
fn padded(heap: Global, bytes: usize) -> Result<String, AllocError> {
    let x = "x".repeat(heap, bytes)?;
    format!(in heap; "i 1 1 3F800000\n{x}")
}

#[test]
fn longest(rt: HostRuntime) -> Result<(), Fail> {
    let script = padded(rt.alloc(), 59_985)?;
    assert!(rt; script.len() == 60_000);
    gives(&rt, script.as_bytes(), b"ok\nno 10\n")
}

#[test]
fn too_long(rt: HostRuntime) -> Result<(), Fail> {
    let script = padded(rt.alloc(), 59_986)?;
    assert!(rt; script.len() == 60_001);
    gives(&rt, script.as_bytes(), b"no 10\n")
}
