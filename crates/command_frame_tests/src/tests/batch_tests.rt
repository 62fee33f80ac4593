//! Lines that are taken at once give what they give one by one, however the file is cut into reads.
ghost use Rattle.std.specs.Prelude.{◌≡◌};

use crate::signs::Signs;
use crate::tests::runs::{TEXTS, folder, sink};
use command_frame::{RunContext, read_named_file};
use hp_num::NoMemory;
use hp_outside::{Limits, LineReader, MemSink, MemStore};
use std::alloc::Global;
use std::process::Abort;
use std::test::Fail;

/// Reads the file `t`, and says whether it was read to its end.
fn is_read(
    alloc: Global,
    signs: &mut Signs,
    store: &mut MemStore,
    out: &mut MemSink,
) -> Result<bool, NoMemory>
    requires unopened { store.old.store.opens ≡ 0 }
    requires none_taken { signs.old.taken ≡ 0 }
    requires none_called { signs.old.called ≡ 0 }
{
    let limits = Limits::standard();
    let context = RunContext {
        alloc,
        limits,
        texts: TEXTS,
    };
    let mut lines = LineReader::new(alloc, &limits)?;
    Ok(read_named_file(&context, &mut lines, "t", signs, store, out).is_ok())
}

/// Reads the file `t`, and asserts what its lines give and how many of them were taken one by one.
fn assert_given(
    rt: &impl Abort,
    alloc: Global,
    signs: &mut Signs,
    store: &mut MemStore,
    out: &mut MemSink,
    called: u64,
) -> Result<(), Fail>
    requires unopened { store.old.store.opens ≡ 0 }
    requires none_taken { signs.old.taken ≡ 0 }
    requires none_called { signs.old.called ≡ 0 }
{
    assert!(rt; is_read(alloc, signs, store, out)?);
    assert_eq!(rt; out.bytes(), b"abcd".as_slice());
    assert_eq!(rt; signs.taken, 5);
    assert_eq!(rt; signs.called, called);
    Ok(())
}

/// Reads a file of two lines around three signs, in reads of so many bytes, and compares what it gives and how many lines
/// were taken one by one.
fn signs_give(
    rt: &impl Abort,
    alloc: Global,
    piece: usize,
    at_once: bool,
    called: u64,
) -> Result<(), Fail> {
    let mut store = folder(alloc, piece, b"ab\n+\n+\n+\ncd\n", 0)?;
    let mut out = sink(alloc, 99, 0)?;
    let mut signs = Signs {
        at_once,
        taken: 0,
        called: 0,
    };
    assert_given(rt, alloc, &mut signs, &mut store, &mut out, called)
}

#[test]
fn lines_at_once(rt: HostRuntime) -> Result<(), Fail> {
    for (piece, at_once, called) in [
        (1, true, 5),
        (7, true, 3),
        (64, true, 2),
        (1, false, 5),
        (7, false, 5),
        (64, false, 5),
    ] {
        signs_give(&rt, rt.alloc(), piece, at_once, called)?;
    }
    Ok(())
}
