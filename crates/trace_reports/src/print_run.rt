//! The report on one trace: by backtrace who calls most, who holds the peak, who leaks and who allocates for a moment.
ghost use Rattle.std.specs.Prelude.{option_map, ◌^◌, ◌<◌};
ghost use Rattle.command_frame.specs.RunsTo.{Runs};
ghost use Rattle.trace_reading.specs.SuppressionsReport.{names_behind, plan_behind};
ghost use Rattle.trace_reports.specs.PrintReport.{report_written};

use command_frame::{Halt, PairNames, RunContext};
use hp_num::NoMemory;
use hp_outside::{Sink, Store};
use ht_print::{PrintOptions, Suppressed, put_report};
use ht_trace::Tables;
use peak_costs::Peaks;
use std::alloc::Global;
use trace_reading::{TraceWriter, run_suppressed, run_trace};

/// Writes the report.
#[derive(Clone, Copy)]
pub struct PrintWriter {
    options: PrintOptions,
}

impl TraceWriter<Peaks> for PrintWriter {
    ghost use Rattle.trace_reports.specs.PrintReport.{report_written};

    type Rest = Vec<u8>;

    ghost text = { λ writer. report_written writer.options };

    fn write(&self, alloc: Global, tables: Tables, peaks: Peaks) -> Result<Vec<u8>, NoMemory> {
        let suppressed = Suppressed::build(alloc, &tables)?;
        let mut output = Vec::new(alloc);
        put_report(
            alloc,
            &self.options,
            &tables,
            &peaks,
            &suppressed,
            &mut output,
        )?;
        Ok(output)
    }
}

/// Reads the suppressions file, if one is named, and then the named trace, and gives the report.
pub fn run_print<S: Store, O: Sink>(
    context: &RunContext,
    suppressions: Option<&str>,
    trace: &str,
    options: PrintOptions,
    store: &mut S,
    out: &mut O,
) -> Result<Vec<u8>, Halt>
    requires { S.opens store.old < 2 ^ 63 }
    ensures { Runs S.Store O.Sink context.now
        (names_behind (option_map (λ name. name.now) suppressions.entry) trace.now)
        (plan_behind (option_map (λ name. name.now) suppressions.entry) trace.now
        (report_written options))
        store.old store.new out.old out.new result }
{
    let writer = PrintWriter { options };
    match suppressions {
        None => run_trace(context, trace, writer, store, out),
        Some(suppressions) => {
            let names = PairNames {
                first: suppressions,
                second: trace,
            };
            run_suppressed(context, &names, writer, store, out)
        }
    }
}
