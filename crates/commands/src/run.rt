//! The public call of the program: words and files in, output, message and status out.
ghost use Rattle.std.specs.Prelude.{◌^◌, ◌<◌};
ghost use Rattle.commands.specs.HasRun.{HasRunOver};

use crate::list::{heapsuite_texts, run_words};
use command_frame::RunContext;
use hp_outside::{Limits, Sink, Store};
use interpret::interpreted_traces;
use std::alloc::Global;

/// Runs `heapsuite` with these words, which leave out the program's name: a command with its options and files, or
/// `--help` alone. A file named `-` is standard input.
///
/// Standard output gets the report and standard error the message; both are flushed at the end. The answer is the status
/// with which the program ends:
///
/// - 0: the report was written, and each file was read to its end.
/// - 1: an input has a fault, the first of which the message names.
/// - 2: the words aren't taken; the message is the usage text.
/// - 3: a file is absent, or a call on the store failed. A fault of a line that was taken whole before the failed call
///   is told in its stead, and so is one of a line's length that the bytes taken show.
/// - 4: a write or a flush failed.
/// - 5: memory was wanting.
/// - 6: an input is past a limit.
///
/// `limits` bounds the bytes of each file, and those of each of its lines without its line feed.
///
/// All that is promised stands in `HasRun`, clause by clause. The store must have counted fewer than 2^63 calls of `open`.
pub fn heapsuite_run<S: Store, O: Sink, E: Sink>(
    alloc: Global,
    words: &[String],
    limits: &Limits,
    store: &mut S,
    out: &mut O,
    err: &mut E,
) -> u8
    requires { S.opens store.old < 2 ^ 63 }
    ensures { HasRunOver S.Store O.Sink E.Sink limits.now words.now
        store.old out.old err.old store.new out.new err.new result }
{
    interpreted_traces();
    let context = RunContext {
        alloc,
        limits: *limits,
        texts: heapsuite_texts(),
    };
    run_words(&context, words, store, out, err)
}
