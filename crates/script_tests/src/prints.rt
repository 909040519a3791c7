// A script against what it should print.
use std::process::Abort;
use std::test::Fail;

pub fn gives(rt: &(impl Abort + AllocGlobal), script: &[u8], want: &[u8]) -> Result<(), Fail> {
    let out = script::report(rt.alloc(), script)?;
    assert!(rt; out.as_slice() == want);
    Ok(())
}
