// What lines print.
use crate::prints::gives;
use std::test::Fail;

#[test]
fn sample(rt: HostRuntime) -> Result<(), Fail> {
    gives(
        &rt,
        b"i 10 1 4B800000\ni 11 1 3F800000\ni 12 1 3F800000\ns 10 12\nf 10 12 2\nd 11 1\ns 10 12\nd 11 1\ns 12 11\n",
        b"ok\nok\nok\nsum 4B800000 3\nfirst 2\n10 1 4B800000\n11 1 3F800000\nok\nsum 4B800000 2\nno 5\nno 6\n",
    )
}

// Weights and thresholds that are no finite number without a sign.
#[test]
fn unfit(rt: HostRuntime) -> Result<(), Fail> {
    gives(
        &rt,
        b"i 1 1 7F800000\ni 1 1 80000000\ni 1 1 7FC00000\ni 1 1 7F7FFFFF\nc 1 1 FFFFFFFF\nr 0 9 80000000\nr 9 0 80000000\n",
        b"no 2\nno 2\nno 2\nok\nno 2\nno 2\nno 6\n",
    )
}

#[test]
fn changes(rt: HostRuntime) -> Result<(), Fail> {
    gives(
        &rt,
        b"c 5 5 3F800000\ni 5 5 3F800000\ni 5 5 40000000\nc 5 5 40000000\nf 5 5 9\nr 5 5 3F800000\nr 5 5 40000000\nd 5 6\n",
        b"no 5\nok\nno 3\nok\nfirst 1\n5 5 40000000\nrange 0\nrange 1\nno 5\n",
    )
}

// The largest weight twice is infinite, and a further point is still counted.
#[test]
fn overflow(rt: HostRuntime) -> Result<(), Fail> {
    gives(
        &rt,
        b"i 1 1 7F7FFFFF\ni 1 2 7F7FFFFF\ns 1 1\ni 1 3 3F800000\ns 0 9\ns 2 2\n",
        b"ok\nok\nsum 7F800000 2\nok\nsum 7F800000 3\nsum 00000000 0\n",
    )
}

// Points come in key order: the epoch first, then the number.
#[test]
fn order(rt: HostRuntime) -> Result<(), Fail> {
    gives(
        &rt,
        b"i 2 1 00000000\ni 1 7 00000001\ni 1 3 00ABCDEF\nf 0 9 0\nf 0 9 64\nf 9 0 0\n",
        b"ok\nok\nok\nfirst 0\nfirst 3\n1 3 00ABCDEF\n1 7 00000001\n2 1 00000000\nno 6\n",
    )
}

#[test]
fn line_ends(rt: HostRuntime) -> Result<(), Fail> {
    gives(&rt, b"", b"")?;
    gives(&rt, b"\n", b"no 10\n")?;
    gives(&rt, b"\n\n", b"no 10\nno 10\n")?;
    gives(&rt, b"i 1 1 3F800000\ns 1 1", b"ok\nsum 3F800000 1\n")?;
    gives(&rt, b"s 1 1\r\n", b"no 10\n")
}
