//! The public call of the program: words and files in, the trace of threads or what is said of one, messages and a status out.
ghost use Rattle.std.specs.Prelude.{◌^◌, ◌<◌, IfOk, OnErr};
ghost use Rattle.std.specs.Process.{exit_status};
ghost use Rattle.heaprec_commands.specs.RunsOver.{HasRun, HasRunMain, IsWanting};

use crate::open_gate::OpenGate;
use crate::run_words::run_words;
use crate::texts::heaprec_texts;
use command_frame::{Halt, RunContext, deliver};
use hp_num::NoMemory;
use hp_outside::{Limits, Sink, Store};
use recorder::Gate;
use std::alloc::Global;
use std::process::ExitCode;
use std::sync::Wait;
use std::thread::Threads;

/// Runs `heaprec` with these words, which leave out the program's name: a modules file, whether a summary is written or a
/// trace is checked, and 1 to 64 scripts. A file named `-` is standard input.
///
/// Each script is a thread's, from thread 0 on. Standard output gets the trace of all of them, in an order that is an
/// interleaving of the scripts; which one, is up to the threads and the gate. With a trace to check no thread is started:
/// standard output gets the line `a recording of N events` where the trace is such a one. The answer is the status with
/// which the program ends:
///
/// - 0: the trace was written, or the one that was checked is a recording; and each file was read to its end.
/// - 1: a script or the modules file has a fault, the first of which the message names; or the trace is no recording, and the
///   message names the first line with which none goes on.
/// - 2: the words aren't taken; the message is the usage text. No words at all take no memory.
/// - 3: a file is absent, or a call on the store failed. A fault of a line that was taken whole before the failed call
///   is told in its stead, and so is one of a line's length that the bytes taken show.
/// - 4: a write or a flush failed.
/// - 5: memory was wanting.
/// - 6: an input is past a limit.
///
/// `limits` bounds the bytes of each file, those of each of its lines without its line feed, and the events of all scripts.
/// What follows for each status, and where a call failed, is told by the record `HeaprecRan`.
///
/// The store must have counted fewer than 2^63 calls of `open`.
pub fn heaprec_run<R: Threads + Wait + Sync, S: Store, O: Sink, E: Sink, G: Gate + Sync>(
    rt: &R,
    alloc: Global,
    words: &[String],
    limits: &Limits,
    store: &mut S,
    out: &mut O,
    err: &mut E,
    gate: &G,
) -> u8
    requires { S.opens store.old < 2 ^ 63 }
    ensures { HasRun S.Store O.Sink E.Sink limits.now words.now store.old out.old err.old store.new
        out.new err.new result }
{
    let context = RunContext {
        alloc,
        limits: *limits,
        texts: heaprec_texts(),
    };
    let ran = run_words(rt, &context, words, store, out, gate);
    deliver(ran, &context.texts, out, err)
}

/// Runs `heaprec` with the limits of the program and a gate that does nothing, and answers that the program ends with the status
/// of the run. Where the words couldn't be had for want of memory, that is told.
pub fn heaprec_main<R: Threads + Wait + Sync, S: Store, O: Sink, E: Sink>(
    rt: &R,
    alloc: Global,
    words: &Result<Vec<String>, NoMemory>,
    store: &mut S,
    out: &mut O,
    err: &mut E,
) -> ExitCode
    requires { S.opens store.old < 2 ^ 63 }
    ensures run { IfOk words.now (HasRunMain S.Store O.Sink E.Sink store.old out.old err.old
        store.new out.new err.new (exit_status result)) }
    ensures wanting { OnErr words.now (IsWanting S.Store O.Sink E.Sink store.old out.old err.old
        store.new out.new err.new (exit_status result)) }
{
    match words {
        Ok(words) => {
            let limits = Limits::standard();
            let status = heaprec_run(rt, alloc, words, &limits, store, out, err, &OpenGate);
            ExitCode::from(status)
        }
        Err(NoMemory) => {
            let ran: Result<Vec<u8>, Halt> = Err(Halt::no_memory());
            let status = deliver(ran, &heaprec_texts(), out, err);
            ExitCode::from(status)
        }
    }
}
