//! What runs are made of in the tests: files in memory and both outputs.
ghost use Rattle.std.specs.Prelude.{◌≡◌, IfOk};

use command_frame::ProgramTexts;
use hp_num::NoMemory;
use hp_outside::{MemSink, MemStore};
use std::alloc::Global;

pub const TEXTS: ProgramTexts = ProgramTexts {
    name: "echo",
    usage: b"usage\n",
    out_of_memory: b"echo: out of memory\n",
    write_failed: b"echo: write failed\n",
};

/// A folder with the file `t`, read in pieces of so many bytes, of whose calls one is to fail.
pub fn folder(
    alloc: Global,
    piece: usize,
    bytes: &[u8],
    failing_call: u64,
) -> Result<MemStore, NoMemory>
    ensures unopened { IfOk result (λ store. store.store.opens ≡ 0) }
{
    let mut store = MemStore::new(alloc, piece.max(1));
    store.add("t", bytes)?;
    store.fail_at(failing_call)?;
    Ok(store)
}

/// A folder with the files `a` and `b`, read in pieces of so many bytes, of whose calls one is to fail.
pub fn two_files(
    alloc: Global,
    piece: usize,
    first: &str,
    second: &str,
    failing_call: u64,
) -> Result<MemStore, NoMemory>
    ensures unopened { IfOk result (λ store. store.store.opens ≡ 0) }
{
    let mut store = MemStore::new(alloc, piece.max(1));
    store.add("a", first.as_bytes())?;
    store.add("b", second.as_bytes())?;
    store.fail_at(failing_call)?;
    Ok(store)
}

/// An output with this room, of whose calls one is to fail.
pub fn sink(alloc: Global, room: usize, failing_call: u64) -> Result<MemSink, NoMemory> {
    let mut sink = MemSink::new(alloc, room)?;
    sink.fail_at(failing_call)?;
    Ok(sink)
}

/// Both outputs of a run.
#[derive(Drop)]
pub struct Outputs {
    pub out: MemSink,
    pub err: MemSink,
}
