//! Runs over a folder in memory.
ghost use Rattle.std.specs.Prelude.{◌≡◌, ℕ, List, OnOk, None};
ghost use Rattle.hp_outside.specs.Folder.{file_of};

use crate::tests::gates::Watch;
use heaprec_commands::heaprec_run;
use hp_num::{NoMemory, put_bytes, put_dec};
use hp_outside::{Limits, MemSink, MemStore};
use std::alloc::Global;
use std::process::Abort;
use std::sync::Wait;
use std::thread::Threads;

/// How the program is called. Transcripts show it as `(usage)`.
const USAGE: &str = "usage: heaprec [--modules=FILE] [--summary] [--check=TRACE] SCRIPT...\n";

/// A modules file.
const MODULES: &str = "# modules\nm app  01000 0 1F00\nm -\n";

/// Adds the words, which stand between blanks.
pub fn add_words(list: &mut Vec<String>, alloc: Global, words: &str) -> Result<(), NoMemory> {
    if words.is_empty() {
        return Ok(());
    }
    for word in words.split(' ') {
        list.push(String::from_str(alloc, word)?)?;
    }
    Ok(())
}

/// How runs are made: how many events all scripts may have, and which calls fail. A call of number 0 never fails.
#[derive(Clone, Copy)]
pub struct Setting {
    pub most_events: u16,
    pub piece: usize,
    pub failing_store_call: u64,
    pub failing_out_call: u64,
    pub failing_err_call: u64,
}

/// All calls are sound.
pub const fn sound(most_events: u16) -> Setting {
    Setting {
        most_events,
        piece: 16,
        failing_store_call: 0,
        failing_out_call: 0,
        failing_err_call: 0,
    }
}

/// A run over a folder that has the file `s`, the scripts `s0`, `s1` and `r`, and the modules file `m`.
#[derive(Clone, Copy)]
pub struct Run<'a> {
    pub setting: Setting,
    /// What `s` has.
    pub script: &'a [u8],
    /// The words, which stand between blanks.
    pub words: &'a str,
}

/// Adds the files of a run.
fn add_files(store: &mut MemStore, run: &Run) -> Result<(), NoMemory>
    requires none_held { (name : List ℕ) → file_of store.old.store.folder name ≡ None }
    ensures opens { OnOk result (store.new.store.opens ≡ store.old.store.opens) }
{
    store.add("s", run.script)?;
    store.add("s0", b"a 1 40 500 400\nf 1\n")?;
    store.add("s1", b"a 1 8 400\n")?;
    store.add("r", b"a 1 10 1\nr 1 20 1\nr 1 20 2\n")?;
    store.add("m", MODULES.as_bytes())
}

/// What a run reads and writes.
#[derive(Drop)]
struct Ends {
    store: MemStore,
    out: MemSink,
    err: MemSink,
}

/// Adds the files of a run, and names the calls that are to fail.
fn fill(ends: &mut Ends, run: &Run) -> Result<(), NoMemory>
    requires none_held { (name : List ℕ) → file_of ends.old.store.store.folder name ≡ None }
    ensures opens { OnOk result (ends.new.store.store.opens ≡ ends.old.store.store.opens) }
{
    add_files(&mut ends.store, run)?;
    ends.store.fail_at(run.setting.failing_store_call)?;
    ends.out.fail_at(run.setting.failing_out_call)?;
    ends.err.fail_at(run.setting.failing_err_call)
}

/// The folder of a run, and its empty outputs.
fn ends_of(rt: &impl Abort, alloc: Global, run: &Run) -> Ends
    ensures unopened { result.store.store.opens ≡ 0 }
{
    let mut ends = Ends {
        store: MemStore::new(alloc, run.setting.piece.max(1)),
        out: MemSink::new(alloc, 20_000).expect(rt, "an output"),
        err: MemSink::new(alloc, 20_000).expect(rt, "an output"),
    };
    fill(&mut ends, run).expect(rt, "files");
    ends
}

/// Runs the words over a folder, whose scripts may have so many events, and gives the status.
fn status_of<R: Threads + Wait + Sync>(
    rt: &R,
    alloc: Global,
    words: &[String],
    most_events: u16,
    ends: &mut Ends,
    gate: &Watch,
) -> u8
    requires unopened { ends.old.store.store.opens ≡ 0 }
{
    let limits = Limits {
        input: 100_000,
        line: 1000,
        order: u64::from(most_events),
    };
    let Ends { store, out, err } = ends;
    heaprec_run(rt, alloc, words, &limits, store, out, err, gate)
}

/// Appends what an output got. The usage text is shown by a word.
fn put_got(got: &[u8], all: &mut Vec<u8>) -> Result<(), NoMemory> {
    if got == USAGE.as_bytes() {
        return put_bytes(all, b"(usage)\n");
    }
    put_bytes(all, got)
}

/// Appends what both outputs got and the status in brackets.
fn put_run(ends: &Ends, status: u8, all: &mut Vec<u8>) -> Result<(), NoMemory> {
    put_got(ends.out.bytes(), all)?;
    put_got(ends.err.bytes(), all)?;
    put_bytes(all, b"[")?;
    put_dec(all, u64::from(status))?;
    put_bytes(all, b"]\n")
}

/// Makes the run, and appends what both outputs got and the status in brackets.
pub fn append_run<R: Threads + Wait + Sync + Abort>(
    rt: &R,
    alloc: Global,
    run: &Run,
    gate: &Watch,
    all: &mut Vec<u8>,
) {
    let mut words = Vec::new(alloc);
    add_words(&mut words, alloc, run.words).expect(rt, "words");
    let mut ends = ends_of(rt, alloc, run);
    let status = status_of(rt, alloc, &words, run.setting.most_events, &mut ends, gate);
    put_run(&ends, status, all).expect(rt, "memory");
}
