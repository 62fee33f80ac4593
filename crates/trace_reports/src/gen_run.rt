//! A generated trace of any size, or its summary.
ghost use Rattle.std.specs.Prelude.{[]};
ghost use Rattle.command_frame.specs.Plan.{Ends, Pieces};
ghost use Rattle.command_frame.specs.Report.{Writes};
ghost use Rattle.command_frame.specs.RunsTo.{RunsTo, Shown, Taken, taken};
ghost use Rattle.trace_gen.specs.GeneratedTrace.{generated_text};
ghost use Rattle.trace_gen.specs.Sizes.{sizes_of};
ghost use Rattle.trace_reports.specs.GenReport.{gen_summary};

use crate::gen_summary::gen_summary;
use command_frame::{Halt, RunContext, run_text};
use hp_outside::Sink;
use trace_gen::{Generator, GeneratorOptions};

/// Writes the trace while it is made but for the rest that is answered.
pub fn run_gen<O: Sink>(
    context: &RunContext,
    options: &GeneratorOptions,
    out: &mut O,
) -> Result<Vec<u8>, Halt>
    ensures { (store : Shown) → RunsTo context.now [] (Pieces (generated_text (sizes_of options.now)))
        store store (taken O.Sink out.old) (taken O.Sink out.new) result }
{
    let mut generator = Generator::new(context.alloc, options)?;
    run_text(context, &mut generator, out)
}

/// The summary of the trace. It writes nothing.
pub fn run_gen_summary(context: &RunContext, options: &GeneratorOptions) -> Result<Vec<u8>, Halt>
    ensures { (store : Shown) (out : Taken) → RunsTo context.now []
        (Ends (Writes (gen_summary (sizes_of options.now))))
        store store out out result }
{
    Ok(gen_summary(context.alloc, options)?)
}
