// Which lines are readable, and what they say.
use crate::prints::gives;
use lines::{Command, parse};
use std::process::Abort;
use std::test::Fail;

fn says(rt: &impl Abort, line: &[u8], command: Command) {
    assert!(rt; parse(line) == Some(command));
}

fn unreadable(rt: &impl Abort, line: &[u8]) {
    assert!(rt; parse(line).is_none());
}

#[test]
fn leading_zeros(rt: HostRuntime) -> Result<(), Fail> {
    says(
        &rt,
        b"s 00000000000000000007 8",
        Command::Sum { lo: 7, hi: 8 },
    );
    unreadable(&rt, b"s 000000000000000000007 8");
    gives(
        &rt,
        b"i 007 01 3F800000\nf 7 7 01\n",
        b"ok\nfirst 1\n7 1 3F800000\n",
    )
}

#[test]
fn tops(rt: HostRuntime) {
    says(
        &rt,
        b"s 0 18446744073709551615",
        Command::Sum {
            lo: 0,
            hi: 18_446_744_073_709_551_615,
        },
    );
    unreadable(&rt, b"s 0 18446744073709551616");
    unreadable(&rt, b"s 0 99999999999999999999");
    says(
        &rt,
        b"d 1 4294967295",
        Command::Delete {
            epoch: 1,
            number: 4_294_967_295,
        },
    );
    unreadable(&rt, b"d 1 4294967296");
}

#[test]
fn places(rt: HostRuntime) {
    says(
        &rt,
        b"f 9 0 0",
        Command::First {
            lo: 9,
            hi: 0,
            places: 0,
        },
    );
    says(
        &rt,
        b"f 9 0 64",
        Command::First {
            lo: 9,
            hi: 0,
            places: 64,
        },
    );
    unreadable(&rt, b"f 9 0 65");
}

#[test]
fn patterns(rt: HostRuntime) {
    says(
        &rt,
        b"r 1 2 89ABCDEF",
        Command::Range {
            lo: 1,
            hi: 2,
            threshold: 0x89AB_CDEF,
        },
    );
    unreadable(&rt, b"r 1 2 89abcdef");
    unreadable(&rt, b"r 1 2 9ABCDEF");
    unreadable(&rt, b"r 1 2 089ABCDEF");
    unreadable(&rt, b"r 1 2 89ABCDEG");
}

// Each line of the script is unreadable, and the script goes on.
#[test]
fn blanks(rt: HostRuntime) -> Result<(), Fail> {
    gives(
        &rt,
        b" s 1 2\ns  1 2\ns 1  2\ns 1 2 \ns\t1 2\ns 1\t2\ns 1 2\x00\ns 1 2\xff\ns 1\ns 1 2 3\ns\ns \nS 1 2\nx 1 2\ns -1 2\ns 1 2\n",
        b"no 10\nno 10\nno 10\nno 10\nno 10\nno 10\nno 10\nno 10\nno 10\nno 10\nno 10\nno 10\nno 10\nno 10\nno 10\nsum 00000000 0\n",
    )
}
