//! A recording of one script, interpreted, and what reports say of it.

use crate::tests::both_runs::{recorded, reported};
use std::process::Abort;
use std::test::Fail;

/// A block of 64 bytes that is freed at once, one of 8 that stays, and one of 16 that is moved and grows to 32.
const SCRIPT: &str = "a 1 40 500 400\nf 1\na 2 8 400\na 3 10 500 400\nr 3 20 500 400\n";

/// What is written of its recording, by the words of `heapsuite`.
const REPORTS: [(&str, &str); 3] = [
    (
        "summary f",
        "events: 6\ncalls: 4\ntemporary: 2\nallocated: 120\npeak: 64 at event 1\nleaked: 40 in 2 blocks\n",
    ),
    (
        "flame --flamegraph-cost-type=leaked f",
        "0x400 8\n0x400;0x500 32\n",
    ),
    ("flame --flamegraph-cost-type=peak f", "0x400;0x500 64\n"),
];

#[test]
fn recording_is_read(rt: HostRuntime) -> Result<(), Fail> {
    let alloc = rt.alloc();
    let raw = recorded(&rt, alloc, "f", SCRIPT.as_bytes())?;
    let trace = reported(&rt, alloc, "interpret f", &raw)?;
    for (words, expected) in REPORTS {
        let report = reported(&rt, alloc, words, &trace)?;
        assert_eq!(rt; report.as_slice(), expected.as_bytes());
    }
    Ok(())
}
