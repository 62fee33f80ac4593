//! Whether a named trace is a recording of scripts. From which files the scripts come is no part of it.
ghost use Rattle.std.specs.Prelude.{◌-◌, ◌^◌, ◌<◌};
ghost use Rattle.heaprec_commands.specs.RunsOver.{Checks};

use crate::checked_trace::CheckedTrace;
use command_frame::{Halt, RunContext, run_one_file};
use hp_outside::{Sink, Store};
use order_check::OrderCheck;
use record_scripts::Scripts;

/// Reads the trace of this name line by line, up to the first line with which no recording of the scripts goes on, and answers
/// the line that says of how many events it is a recording.
pub fn check_trace<S: Store, O: Sink>(
    context: &RunContext,
    name: &str,
    scripts: Scripts,
    store: &mut S,
    out: &mut O,
) -> Result<Vec<u8>, Halt>
    requires { S.opens store.old < 2 ^ 64 - 1 }
    ensures { Checks S.Store O.Sink context.now name.now scripts store.old store.new out.old out.new
        result }
{
    let check = OrderCheck::new(context.alloc, scripts.share()?)?;
    let reader = CheckedTrace { check };
    run_one_file(context, name, reader, store, out)
}
