//! A whole run over one file that is read by lines.
ghost use Rattle.std.specs.Prelude.{◌-◌, ◌^◌, ◌<◌};
ghost use Rattle.command_frame.specs.NewTaker.{IsNewTaker};
ghost use Rattle.command_frame.specs.RunsTo.{ReadiesFile};
ghost use Rattle.command_frame.specs.TakesFile.{HasLimits};

use crate::context::RunContext;
use crate::files::read_named_file;
use crate::halt::Halt;
use crate::report::LineReport;
use hp_outside::{LineReader, Sink, Store};

/// Takes all lines of the named file, and makes the rest of the output of them.
pub fn run_one_file<T: LineReport, S: Store, O: Sink>(
    context: &RunContext,
    name: &str,
    taker: T,
    store: &mut S,
    out: &mut O,
) -> Result<T::Rest, Halt>
    requires opens { S.opens store.old < 2 ^ 64 - 1 }
    requires taker { IsNewTaker T.LineTaker taker }
    ensures { ReadiesFile S.Store O.Sink T.Rest.bytes context.now name.now (T.report taker)
        store.old store.new out.old out.new result }
{
    let Ok(mut lines) = LineReader::new(context.alloc, &context.limits) else {
        taker.close();
        return Err(Halt::no_memory());
    };
    run_last_file(context, &mut lines, name, taker, store, out)
}

/// Takes all lines of the last file, and makes the rest of the output of them.
pub fn run_last_file<T: LineReport, S: Store, O: Sink>(
    context: &RunContext,
    lines: &mut LineReader,
    name: &str,
    taker: T,
    store: &mut S,
    out: &mut O,
) -> Result<T::Rest, Halt>
    requires opens { S.opens store.old < 2 ^ 64 - 1 }
    requires limits { HasLimits lines.old context.now.limits }
    requires taker { IsNewTaker T.LineTaker taker }
    ensures { ReadiesFile S.Store O.Sink T.Rest.bytes context.now name.now (T.report taker)
        store.old store.new out.old out.new result }
{
    let mut taker = taker;
    match read_named_file(context, lines, name, &mut taker, store, out) {
        Ok(()) => {}
        Err(halt) => {
            taker.close();
            return Err(halt);
        }
    }
    match taker.finish(context.alloc) {
        Ok(rest) => Ok(rest),
        Err(refusal) => Err(context.refused(name, refusal)),
    }
}
