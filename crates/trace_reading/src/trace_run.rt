//! A whole run over one trace, for which no suppressions are given. What is written of it is the part of the command's writer.
ghost use Rattle.std.specs.Prelude.{◌≡◌, ◌^◌, ◌<◌, [], ◌∷◌};
ghost use Rattle.ht_trace.specs.StandsFor.{StandsFor};
ghost use Rattle.ht_trace.specs.TableState.{TableState};
ghost use Rattle.command_frame.specs.Plan.{one_file};
ghost use Rattle.command_frame.specs.RunsTo.{Readies};
ghost use Rattle.trace_reading.specs.Following.{IsNew};
ghost use Rattle.trace_reading.specs.TraceReport.{trace_plan, trace_report};

use crate::follower::Follower;
use crate::trace_reader::TraceReader;
use crate::trace_writer::TraceWriter;
use command_frame::{Halt, RunContext, run_one_file};
use hp_outside::{Sink, Store};
use ht_trace::Tables;
use peak_costs::Peaks;

/// Reads the named trace into its peaks, and gives what is written of it.
pub fn run_trace<W: TraceWriter<Peaks> + Drop, S: Store, O: Sink>(
    context: &RunContext,
    name: &str,
    writer: W,
    store: &mut S,
    out: &mut O,
) -> Result<W::Rest, Halt>
    requires { S.opens store.old < 2 ^ 63 }
    ensures { Readies S.Store O.Sink W.Rest.bytes context.now (name.now ∷ [])
        (trace_plan name.now (W.text writer []))
        store.old store.new out.old out.new result }
{
    let peaks = Peaks::new(context.alloc)?;
    run_followed(context, name, peaks, writer, store, out)
}

/// Reads the named trace with a follower that has followed nothing, and gives what is written of it.
pub fn run_followed<F: Follower, W: TraceWriter<F> + Drop, S: Store, O: Sink>(
    context: &RunContext,
    name: &str,
    follower: F,
    writer: W,
    store: &mut S,
    out: &mut O,
) -> Result<W::Rest, Halt>
    requires opens { S.opens store.old < 2 ^ 63 }
    requires new { (tables : TableState) → StandsFor tables [] → IsNew tables (F.view follower) }
    ensures { Readies S.Store O.Sink W.Rest.bytes context.now (name.now ∷ [])
        (one_file name.now (trace_report F.faults [] (W.text writer [])))
        store.old store.new out.old out.new result }
{
    let reader = TraceReader::new(Tables::new(context.alloc), follower, writer);
    run_one_file(context, name, reader, store, out)
}
