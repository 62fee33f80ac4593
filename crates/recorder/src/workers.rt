//! The workers: one for each script, in a tree of joins.
ghost use Rattle.std.specs.Prelude.{◌+◌, ◌≤◌, IfOk};
ghost use Rattle.std.specs.Thread.{IsSync};
ghost use Rattle.recorder.specs.Ending.{HaveEnded};

use crate::ended::Ended;
use crate::gate::Gate;
use crate::locked_book::Recorder;
use hp_num::NoMemory;
use std::sync::Wait;
use std::thread::{Threads, join};

/// Runs a worker for each number below `threads`, and returns when all have ended. Worker i calls `gate.before(i, h)`
/// outside the lock, from h = 0, and then takes the lock for one hold, in which it takes up to 64 turns of script i. It goes
/// on until a hold took fewer, which is also where the book has no script i.
///
/// `NoMemory` where a worker's hold answered it, which was that worker's last one. The others go on.
pub fn run_workers<R: Threads + Wait + Sync, G: Gate + Sync>(
    rt: &R,
    recorder: &Recorder,
    threads: u32,
    gate: &G,
) -> Result<(), NoMemory> {
    let _all = run_between(rt, recorder, 0, threads, gate)?;
    Ok(())
}

/// The workers from a number on and below an end: of more than one, one half beside the other. All of them have ended well where the
/// answer says so of them, and so `NoMemory` of either half is the answer.
fn run_between<R: Threads + Wait + Sync, G: Gate + Sync>(
    rt: &R,
    recorder: &Recorder,
    first: u32,
    end: u32,
    gate: &G,
) -> Result<Ended, NoMemory>
    requires { first ≤ end }
    ensures { IfOk result (HaveEnded first end) }
{
    if first >= end {
        return Ok(Ended::none(first));
    }
    if end - first == 1 {
        return work(rt, recorder, first, gate);
    }
    let middle = first + (end - first) / 2;
    let (left, right) = join(
        rt,
        || -> Result<Ended, NoMemory>
            requires sync { IsSync R.row }
            requires within { first ≤ middle }
            ensures ended { IfOk result (HaveEnded first middle) }
        { run_between(rt, recorder, first, middle, gate) },
        || -> Result<Ended, NoMemory>
            requires sync { IsSync R.row }
            requires within { middle ≤ end }
            ensures ended { IfOk result (HaveEnded middle end) }
        { run_between(rt, recorder, middle, end, gate) },
    );
    let left = left?;
    let right = right?;
    Ok(left.and(right))
}

/// One worker: the holds of a thread.
fn work<R: Wait, G: Gate>(
    rt: &R,
    recorder: &Recorder,
    thread: u32,
    gate: &G,
) -> Result<Ended, NoMemory>
    ensures { IfOk result (HaveEnded thread (thread + 1)) }
{
    let mut hold = 0u64;
    for _ in rt.forever() {
        gate.before(thread, hold);
        if let Some(ended) = recorder.hold(rt, thread)? {
            return Ok(ended);
        }
        hold = hold.wrapping_add(1);
    }
    unreachable!()
}
