//! Texts that are written while they are made.
use crate::countdown::Countdown;
use crate::tests::runs::{TEXTS, sink};
use command_frame::{RunContext, run_text};
use hp_outside::{Limits, MemSink};
use std::alloc::Global;
use std::process::Abort;
use std::test::Fail;

/// Writes 7,000 lines of ten bytes, and gives how many of their bytes are the rest.
fn rest_length(alloc: Global, out: &mut MemSink) -> Option<usize> {
    let context = RunContext {
        alloc,
        limits: Limits::standard(),
        texts: TEXTS,
    };
    let mut countdown = Countdown { left: 7_000 };
    match run_text(&context, &mut countdown, out) {
        Ok(rest) => Some(rest.len()),
        Err(_) => None,
    }
}

/// Asserts the length of the rest, and that one piece is written.
fn assert_rest(
    rt: &impl Abort,
    rest: Option<usize>,
    expected: Option<usize>,
    out: &MemSink,
) -> Result<(), Fail> {
    assert_eq!(rt; rest, expected);
    assert_eq!(rt; out.bytes().len(), 65_540);
    Ok(())
}

/// A piece of 65,540 bytes is written, and 4,460 are the rest. The second write fails.
#[test]
fn text_in_pieces(rt: HostRuntime) -> Result<(), Fail> {
    let alloc = rt.alloc();
    let mut out = sink(alloc, 80_000, 2)?;
    let rest = rest_length(alloc, &mut out);
    assert_rest(&rt, rest, Some(4_460), &out)?;
    let more = rest_length(alloc, &mut out);
    assert_rest(&rt, more, None, &out)
}
