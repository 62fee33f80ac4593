//! What no clause says: that there is a worker for each script, that the workers are beside each other and have all ended when
//! the call returns, and that they take all turns and leave none to what comes behind them.

use crate::tests::gates::{NOBODY, Watch};
use crate::tests::script_text::{put_hundreds, scripts_of};
use record_book::Book;
use recorder::{Recorder, run_workers};
use std::alloc::Global;
use std::process::Abort;
use std::sync::Wait;
use std::thread::Threads;

/// How many turns so many workers take of the scripts of a text.
fn turns_of_workers<R: Threads + Wait + Sync + Abort>(
    rt: &R,
    alloc: Global,
    text: &[u8],
    workers: u32,
    gate: &Watch,
) -> usize {
    let job = scripts_of(rt, alloc, text);
    let recorder = Recorder::new(Book::new(alloc, job).expect(rt, "a book"));
    run_workers(rt, &recorder, workers, gate).expect(rt, "memory");
    recorder.close().order().len()
}

/// Numbers of workers over a script of two turns and one of a turn, and how many turns they take. What no worker takes, is left.
static FEW: [(u32, usize); 4] = [(0, 0), (1, 2), (2, 3), (3, 3)];

#[test]
fn workers_take_the_turns_of_their_scripts(rt: HostRuntime) {
    for (workers, want) in &FEW {
        let text = b"a 1 40 500 400\nf 1|a 1 8 400";
        let turns = turns_of_workers(&rt, rt.alloc(), text, *workers, &Watch::of(NOBODY));
        assert_eq!(rt; turns, *want);
    }
}

/// So many workers meet at their second holds, and take all turns of as many scripts of a hundred allocations.
fn leave_no_turn<R: Threads + Wait + Sync + Abort>(rt: &R, alloc: Global, workers: u32) {
    let gate = Watch::of(workers);
    let mut text = Vec::new(alloc);
    put_hundreds(workers, &mut text).expect(rt, "memory");
    let turns = turns_of_workers(rt, alloc, &text, workers, &gate);
    assert!(rt; gate.has_met(), "the workers never met");
    assert!(rt;
        gate.has_counted(workers, 2),
        "the holds have other numbers"
    );
    assert_eq!(rt; turns, 100 * workers as usize);
}

#[test]
fn workers_leave_no_turn(rt: HostRuntime) {
    for workers in [1, 2, 3, 8] {
        leave_no_turn(&rt, rt.alloc(), workers);
    }
}
