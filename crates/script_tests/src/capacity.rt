// As many points as there is room for.
use crate::prints::gives;
use std::alloc::{AllocError, Global};
use std::test::Fail;

// Inserts at the epochs 0 to 255.
fn full(heap: Global) -> Result<String, AllocError> {
    let mut text = String::new(heap);
    for epoch in 0..256u64 {
        writeln!(text, "i {epoch} 1 3F800000")?;
    }
    Ok(text)
}

// The point after the last is refused until one is deleted; a key that stands is refused as such.
#[test]
fn room(rt: HostRuntime) -> Result<(), Fail> {
    let mut script = full(rt.alloc())?;
    script.push_str(
        "i 256 1 3F800000\ni 0 1 3F800000\ni 0 1 FF800000\nd 7 1\ni 256 1 3F800000\ns 0 999\nr 0 999 3F800000\n",
    )?;
    let mut want = "ok\n".repeat(rt.alloc(), 256)?;
    want.push_str("no 4\nno 3\nno 2\nok\nok\nsum 43800000 256\nrange 256\n")?;
    gives(&rt, script.as_bytes(), want.as_bytes())
}
