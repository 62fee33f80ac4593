//! A run with the limits of the program, whether its words could be had or not.
ghost use Rattle.std.specs.Prelude.{◌^◌, ◌<◌, map, string_bytes, IfErr, IfOk};
ghost use Rattle.std.specs.Process.{exit_status};
ghost use Rattle.command_frame.specs.Outside.{outside};
ghost use Rattle.command_frame.specs.RunEnds.{HasNotBegun};
ghost use Rattle.commands.specs.HasRun.{HasRun};
ghost use Rattle.commands.specs.Texts.{heapsuite_texts as the_texts};
ghost use Rattle.heapsuite.specs.StandardBounds.{standard_bounds};

use command_frame::{Halt, deliver};
use commands::{heapsuite_run, heapsuite_texts};
use hp_num::NoMemory;
use hp_outside::{Limits, Sink, Store};
use std::alloc::Global;
use std::process::ExitCode;

/// Runs `heapsuite` with these words and the limits of the program, and answers that the program ends with the status of the run.
/// Where the words couldn't be had for want of memory, that is told, and nothing is read.
pub fn heapsuite_main<S: Store, O: Sink, E: Sink>(
    alloc: Global,
    words: &Result<Vec<String>, NoMemory>,
    store: &mut S,
    out: &mut O,
    err: &mut E,
) -> ExitCode
    requires { S.opens store.old < 2 ^ 63 }
    ensures run { IfOk words.now (λ words. HasRun standard_bounds (map string_bytes words.items)
        (outside S.Store O.Sink E.Sink store.old out.old err.old)
        (outside S.Store O.Sink E.Sink store.new out.new err.new) (exit_status result)) }
    ensures wanting { IfErr words.now (λ fault. HasNotBegun the_texts
        (outside S.Store O.Sink E.Sink store.old out.old err.old)
        (outside S.Store O.Sink E.Sink store.new out.new err.new) (exit_status result)) }
{
    match words {
        Ok(words) => {
            let status = heapsuite_run(alloc, words, &Limits::standard(), store, out, err);
            ExitCode::from(status)
        }
        Err(NoMemory) => {
            let ran: Result<Vec<u8>, Halt> = Err(Halt::no_memory());
            let status = deliver(ran, &heapsuite_texts(), out, err);
            ExitCode::from(status)
        }
    }
}
