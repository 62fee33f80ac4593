//! A whole recording of scripts by threads.
ghost use Rattle.std.specs.Prelude.{◌≡◌, IfOk};
ghost use Rattle.std.specs.Arc.{arc_value};
ghost use Rattle.record_book.specs.Orders.{IsInterleaving};
ghost use Rattle.record_book.specs.ScriptFigures.{HasScriptFigures};

use crate::gate::Gate;
use crate::locked_book::Recorder;
use crate::workers::run_workers;
use hp_num::NoMemory;
use record_book::Book;
use record_scripts::Scripts;
use std::alloc::Global;
use std::sync::{Arc, Wait};
use std::thread::Threads;

/// Records these scripts by a worker for each of them, and answers the book with all turns taken: its order is an
/// interleaving of the scripts, and its figures are theirs. Which order it is, is up to the threads and the gate.
pub fn record_job<R: Threads + Wait + Sync, G: Gate + Sync>(
    rt: &R,
    alloc: Global,
    job: Arc<Scripts>,
    gate: &G,
) -> Result<Book, NoMemory>
    ensures job { IfOk result (λ book. book.job ≡ arc_value job) }
    ensures all { IfOk result (λ book. IsInterleaving book.job.scripts book.order) }
    ensures figures { IfOk result (λ book. HasScriptFigures book.job.scripts book.order) }
{
    let threads = job.threads();
    let recorder = Recorder::new(Book::new(alloc, Arc::try_clone(&job)?)?);
    run_workers(rt, &recorder, threads, gate)?;
    recorder.close().finish(job)
}
