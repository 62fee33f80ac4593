//! The summary of one trace: six figures. No figure of a stack is kept for it.
ghost use Rattle.std.specs.Prelude.{◌^◌, ◌<◌, [], ◌∷◌};
ghost use Rattle.command_frame.specs.RunsTo.{Runs};
ghost use Rattle.trace_reports.specs.SummaryReport.{summary_plan};

use command_frame::{Halt, RunContext};
use hp_num::NoMemory;
use hp_outside::{Sink, Store};
use ht_print::put_totals_summary;
use ht_trace::Tables;
use peak_costs::PeakTotals;
use std::alloc::Global;
use trace_reading::{TraceWriter, run_followed};

/// Writes the six lines.
#[derive(Clone, Copy)]
pub struct SummaryWriter;

impl TraceWriter<PeakTotals> for SummaryWriter {
    ghost use Rattle.trace_reports.specs.SummaryReport.{summary_written};

    type Rest = Vec<u8>;

    ghost text = { λ _. summary_written };

    fn write(
        &self,
        alloc: Global,
        tables: Tables,
        totals: PeakTotals,
    ) -> Result<Vec<u8>, NoMemory> {
        drop(tables);
        let mut output = Vec::new(alloc);
        put_totals_summary(&totals, &mut output)?;
        Ok(output)
    }
}

/// Reads the named trace, and gives the text of its summary.
pub fn run_summary<S: Store, O: Sink>(
    context: &RunContext,
    trace: &str,
    store: &mut S,
    out: &mut O,
) -> Result<Vec<u8>, Halt>
    requires { S.opens store.old < 2 ^ 63 }
    ensures { Runs S.Store O.Sink context.now (trace.now ∷ []) (summary_plan trace.now)
        store.old store.new out.old out.new result }
{
    let totals = PeakTotals::new(context.alloc);
    run_followed(context, trace, totals, SummaryWriter, store, out)
}
