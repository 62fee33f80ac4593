//! Every call of a run that can fail, failed once: each call on the store, on standard output and on standard error.

use crate::tests::gates::{NOBODY, Watch};
use crate::tests::runs::{Run, Setting, append_run, sound};
use hp_num::{NoMemory, put_bytes, put_dec};
use std::alloc::Global;
use std::process::Abort;
use std::sync::Wait;
use std::thread::Threads;

/// On what a call fails.
#[derive(Clone, Copy)]
enum Place {
    Store,
    Out,
    Err,
}

impl Place {
    /// How a table names it.
    fn name(self) -> &'static [u8] {
        match self {
            Place::Store => b"store",
            Place::Out => b"out",
            Place::Err => b"err",
        }
    }

    /// The call of this number fails, from 1, or none. Each file is read in one piece.
    fn failing_at(self, call: u64) -> Setting {
        let mut setting = sound(100);
        setting.piece = 1000;
        match self {
            Place::Store => setting.failing_store_call = call,
            Place::Out => setting.failing_out_call = call,
            Place::Err => setting.failing_err_call = call,
        }
        setting
    }
}

/// What the run comes to where this call fails.
fn outcome<R: Threads + Wait + Sync + Abort>(
    rt: &R,
    alloc: Global,
    script: &[u8],
    words: &str,
    setting: Setting,
) -> Vec<u8> {
    let mut outcome = Vec::new(alloc);
    let run = Run {
        setting,
        script,
        words,
    };
    append_run(rt, alloc, &run, &Watch::of(NOBODY), &mut outcome);
    outcome
}

/// Appends which call failed, and what the run came to.
fn put_failure(place: Place, call: u64, failed: &[u8], all: &mut Vec<u8>) -> Result<(), NoMemory> {
    put_bytes(all, place.name())?;
    put_bytes(all, b" ")?;
    put_dec(all, call)?;
    put_bytes(all, b"\n")?;
    put_bytes(all, failed)
}

/// Fails one call after another at this place, up to the first run that comes to what the sound one comes to, and appends
/// what each comes to.
fn put_failures<R: Threads + Wait + Sync + Abort>(
    rt: &R,
    alloc: Global,
    script: &[u8],
    words: &str,
    place: Place,
    all: &mut Vec<u8>,
) {
    let whole = outcome(rt, alloc, script, words, place.failing_at(0));
    for call in 1..100 {
        let failed = outcome(rt, alloc, script, words, place.failing_at(call));
        if failed.as_slice() == whole.as_slice() {
            break;
        }
        put_failure(place, call, &failed, all).expect(rt, "memory");
    }
}

/// Appends what each failing call of a run comes to.
pub fn put_all_failures<R: Threads + Wait + Sync + Abort>(
    rt: &R,
    alloc: Global,
    script: &[u8],
    words: &str,
    all: &mut Vec<u8>,
) {
    put_failures(rt, alloc, script, words, Place::Store, all);
    put_failures(rt, alloc, script, words, Place::Out, all);
    put_failures(rt, alloc, script, words, Place::Err, all);
}
