// What a test checks, in functions whose promise has to hold where the check fails too.
ghost use Rattle.std.specs.Prelude.{◌≡◌, false, true, OnErr, OnOk};

use std::test::Fail;

// The failure of a test, unless the condition holds.
pub fn check(holds: bool, what: &str) -> Result<(), Fail>
    ensures passes { OnOk result (holds ≡ true) }
    ensures fails { OnErr result (holds ≡ false) }
{
    if holds { Ok(()) } else { Err(Fail::new(what)) }
}
