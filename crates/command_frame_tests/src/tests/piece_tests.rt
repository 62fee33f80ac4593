//! Files that are read one after another, and output that is written in pieces while a file is read.
ghost use Rattle.std.specs.Prelude.{◌≡◌};

use crate::echo::Echo;
use crate::tests::runs::{TEXTS, folder, sink, two_files};
use command_frame::{RunContext, read_named_file, run_one_file};
use hp_num::{NoMemory, put_bytes};
use hp_outside::{Limits, LineReader, MemSink, MemStore};
use std::alloc::Global;
use std::test::Fail;

fn context(alloc: Global) -> RunContext {
    RunContext {
        alloc,
        limits: Limits::standard(),
        texts: TEXTS,
    }
}

/// 7,000 lines of ten bytes.
fn many_lines(alloc: Global) -> Result<Vec<u8>, NoMemory> {
    let mut lines = Vec::new(alloc);
    for _ in 0..7_000 {
        put_bytes(&mut lines, b"123456789\n")?;
    }
    Ok(lines)
}

/// Echoes the file `t`, and says whether its run ended well.
fn is_echoed(alloc: Global, store: &mut MemStore, out: &mut MemSink) -> bool
    requires unopened { store.old.store.opens ≡ 0 }
{
    run_one_file(&context(alloc), "t", Echo { refuses: false }, store, out).is_ok()
}

/// Output of 70,000 bytes is written in two pieces, and in a third the rest. One piece is written, and then a write fails.
#[test]
fn output_in_pieces(rt: HostRuntime) -> Result<(), Fail> {
    let alloc = rt.alloc();
    let lines = many_lines(alloc)?;
    let mut store = folder(alloc, 1_000, &lines, 0)?;
    let mut out = sink(alloc, 80_000, 2)?;
    assert!(rt; !is_echoed(alloc, &mut store, &mut out));
    assert_eq!(rt; out.bytes().len(), 65_540);
    Ok(())
}

/// Reads the files `a` and `b`, and says whether both were read to their ends.
fn are_read(alloc: Global, store: &mut MemStore, out: &mut MemSink) -> Result<bool, NoMemory>
    requires unopened { store.old.store.opens ≡ 0 }
{
    let mut echo = Echo { refuses: false };
    let context = context(alloc);
    let mut lines = LineReader::new(alloc, &context.limits)?;
    if read_named_file(&context, &mut lines, "a", &mut echo, store, out).is_err() {
        return Ok(false);
    }
    Ok(read_named_file(&context, &mut lines, "b", &mut echo, store, out).is_ok())
}

#[test]
fn files_in_order(rt: HostRuntime) -> Result<(), Fail> {
    let alloc = rt.alloc();
    let mut store = two_files(alloc, 3, "first", "second\n", 0)?;
    let mut out = sink(alloc, 99, 0)?;
    assert!(rt; are_read(alloc, &mut store, &mut out)?);
    assert_eq!(rt; out.bytes(), b"first\nsecond\n".as_slice());
    Ok(())
}
