//! Runs of both programs' public calls over a folder in memory.
ghost use Rattle.std.specs.Prelude.{◌≡◌, IfOk};

use crate::tests::gates::{NOBODY, Watch};
use crate::tests::runs::add_words;
use commands::heapsuite_run;
use heaprec_commands::heaprec_run;
use hp_num::{NoMemory, put_bytes};
use hp_outside::{Limits, MemSink, MemStore};
use std::alloc::Global;
use std::process::Abort;
use std::sync::Wait;
use std::test::Fail;
use std::thread::Threads;

/// The words, which stand between blanks.
fn listed(alloc: Global, words: &str) -> Result<Vec<String>, Fail> {
    let mut list = Vec::new(alloc);
    add_words(&mut list, alloc, words)?;
    Ok(list)
}

/// A folder that has this file alone, under the name `f`.
fn folder(alloc: Global, file: &[u8]) -> Result<MemStore, NoMemory>
    ensures unopened { IfOk result (λ store. store.store.opens ≡ 0) }
{
    let mut store = MemStore::new(alloc, 16);
    store.add("f", file)?;
    Ok(store)
}

/// Both outputs of a run.
#[derive(Drop)]
struct Outputs {
    out: MemSink,
    err: MemSink,
}

/// Outputs that have got nothing.
fn empty_outputs(alloc: Global) -> Result<Outputs, NoMemory> {
    Ok(Outputs {
        out: MemSink::new(alloc, 4000)?,
        err: MemSink::new(alloc, 1000)?,
    })
}

/// What standard output got of a run that ended well and told nothing.
fn got(rt: &impl Abort, alloc: Global, status: u8, outputs: &Outputs) -> Result<Vec<u8>, Fail> {
    assert_eq!(rt; outputs.err.bytes(), b"".as_slice());
    assert_eq!(rt; status, 0);
    let mut bytes = Vec::new(alloc);
    put_bytes(&mut bytes, outputs.out.bytes())?;
    Ok(bytes)
}

/// What `heapsuite` writes of the file `f` when it is run with these words, which stand between blanks.
pub fn reported(rt: &impl Abort, alloc: Global, words: &str, file: &[u8]) -> Result<Vec<u8>, Fail> {
    let list = listed(alloc, words)?;
    let mut outputs = empty_outputs(alloc)?;
    let mut store = folder(alloc, file)?;
    let Outputs { out, err } = &mut outputs;
    let status = heapsuite_run(alloc, &list, &Limits::standard(), &mut store, out, err);
    got(rt, alloc, status, &outputs)
}

/// What `heaprec` writes of the file `f` when it is run with these words, which stand between blanks.
pub fn recorded<R: Threads + Wait + Sync + Abort>(
    rt: &R,
    alloc: Global,
    words: &str,
    file: &[u8],
) -> Result<Vec<u8>, Fail> {
    let list = listed(alloc, words)?;
    let mut outputs = empty_outputs(alloc)?;
    let mut store = folder(alloc, file)?;
    let Outputs { out, err } = &mut outputs;
    let status = heaprec_run(
        rt,
        alloc,
        &list,
        &Limits::standard(),
        &mut store,
        out,
        err,
        &Watch::of(NOBODY),
    );
    got(rt, alloc, status, &outputs)
}
