// Reads a script from standard input and prints its report.
#![tactic(auto)]

use std::io;
use std::io::{Read, Write};

// One byte more than a script may have: enough to tell that it is too long.
const ENOUGH: u64 = 60_001;

fn main(rt: HostRuntime) -> io::Result<()> {
    let mut text = Vec::new(rt.alloc());
    rt.stdin().take(ENOUGH).read_to_end(&mut text)?;
    let report = script::report(rt.alloc(), text.as_slice())?;
    rt.stdout().write_all(report.as_slice())
}
