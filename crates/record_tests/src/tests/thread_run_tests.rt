//! Runs of several scripts by threads, whose text is one of those that the scripts allow.

use crate::tests::gates::{NOBODY, Watch};
use crate::tests::runs::{Run, append_run, sound};
use crate::tests::script_text::put_hundred;
use hp_num::NoMemory;
use std::alloc::Global;
use std::process::Abort;
use std::sync::Wait;
use std::thread::Threads;

static FIRST_SCRIPT_FIRST: &str =
    "v 10500 2\nX heaprec\n# thread 0\nt 400 0\nt 500 1\n+ 40 2 10000\n- 10000\n# thread 1\n+ 8 1 10040
# threads: 2\n# events: 3\n# calls: 2\n# allocated: 72\n# leaked: 8 in 1 blocks\n# peak: 64 from 64 to 72
[0]
";

static SECOND_SCRIPT_FIRST: &str =
    "v 10500 2\nX heaprec\n# thread 1\nt 400 0\n+ 8 1 10000\n# thread 0\nt 500 1\n+ 40 2 10010\n- 10010
# threads: 2\n# events: 3\n# calls: 2\n# allocated: 72\n# leaked: 8 in 1 blocks\n# peak: 72 from 64 to 72
[0]
";

#[test]
fn records_two_scripts(rt: HostRuntime) {
    let mut all = Vec::new(rt.alloc());
    let run = Run {
        setting: sound(100),
        script: b"",
        words: "--summary s0 s1",
    };
    append_run(&rt, rt.alloc(), &run, &Watch::of(NOBODY), &mut all);
    let is_first = all.as_slice() == FIRST_SCRIPT_FIRST.as_bytes();
    let is_second = all.as_slice() == SECOND_SCRIPT_FIRST.as_bytes();
    assert!(rt; is_first || is_second, "the text is of no order");
}

/// The lines that name the threads.
static THREADS: [&[u8]; 8] = [
    b"# thread 0",
    b"# thread 1",
    b"# thread 2",
    b"# thread 3",
    b"# thread 4",
    b"# thread 5",
    b"# thread 6",
    b"# thread 7",
];

/// How many of the first allocations of a trace, so many of them, are of a thread, which is given as the line that names it.
fn allocations_of(trace: &[u8], thread: &[u8], first: u32) -> u32 {
    let mut left = first;
    let mut own = 0u32;
    let mut is_its_own = false;
    for line in trace.split(|byte| *byte == b'\n') {
        if line.starts_with(b"# thread ") {
            is_its_own = line == thread;
        }
        if line.starts_with(b"+ ") && left > 0 {
            left = left.saturating_sub(1);
            if is_its_own {
                own = own.saturating_add(1);
            }
        }
    }
    own
}

/// The words of a run of so many scripts, each of them the file `s`.
fn put_words(scripts: u32, words: &mut String) -> Result<(), NoMemory> {
    for script in 0..scripts {
        words.push_str(if script == 0 { "s" } else { " s" })?;
    }
    Ok(())
}

/// The trace of so many threads, each of which makes a hundred allocations.
fn put_trace<R: Threads + Wait + Sync + Abort>(
    rt: &R,
    alloc: Global,
    threads: u32,
    gate: &Watch,
    trace: &mut Vec<u8>,
) {
    let mut script = Vec::new(alloc);
    put_hundred(&mut script).expect(rt, "memory");
    let mut words = String::new(alloc);
    put_words(threads, &mut words).expect(rt, "memory");
    let run = Run {
        setting: sound(1000),
        script: &script,
        words: &words,
    };
    append_run(rt, alloc, &run, gate, trace);
}

/// Whether each of so many threads has taken the turns of its first hold when any begins its second, and all take all.
fn are_beside(trace: &[u8], threads: u32) -> bool {
    let first_holds = threads.saturating_mul(64);
    for thread in THREADS.iter().take(threads as usize) {
        if allocations_of(trace, thread, first_holds) != 64
            || allocations_of(trace, thread, u32::MAX) != 100
        {
            return false;
        }
    }
    true
}

/// That so many workers meet at their second holds, that their holds are numbered, and that their turns stand beside each other.
fn meet<R: Threads + Wait + Sync + Abort>(rt: &R, alloc: Global, workers: u32) {
    let gate = Watch::of(workers);
    let mut trace = Vec::new(alloc);
    put_trace(rt, alloc, workers, &gate, &mut trace);
    let beside = are_beside(&trace, workers);
    drop(trace);
    assert!(rt; gate.has_met(), "the workers never met");
    assert!(rt;
        gate.has_counted(workers, 2),
        "the holds have other numbers"
    );
    assert!(rt; beside, "the turns stand behind each other");
}

#[test]
fn workers_meet(rt: HostRuntime) {
    for workers in [2, 3, 8] {
        meet(&rt, rt.alloc(), workers);
    }
}
