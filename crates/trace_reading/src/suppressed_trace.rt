//! A suppressions file and the trace behind it, for any writer of a trace.
ghost use Rattle.std.specs.Prelude.{◌^◌, ◌<◌, [], ◌∷◌, Some};
ghost use Rattle.command_frame.specs.RunsTo.{Readies};
ghost use Rattle.trace_reading.specs.SuppressionsReport.{plan_behind};

use crate::suppressions::SuppressionsTaker;
use crate::trace_reader::TraceReader;
use crate::trace_writer::TraceWriter;
use command_frame::{FilePair, Halt, PairNames, RunContext, run_pair};
use hp_num::NoMemory;
use hp_outside::{Sink, Store};
use peak_costs::Peaks;
use std::alloc::Global;

/// What is made of a trace whose own patterns stand behind those of a suppressions file.
#[derive(Clone, Copy)]
pub struct SuppressedTrace<W> {
    pub writer: W,
}

impl<W: TraceWriter<Peaks> + Copy + Drop> FilePair for SuppressedTrace<W> {
    ghost use Rattle.trace_reading.specs.SuppressionsReport.{report_behind};

    type First = SuppressionsTaker;

    type Second = TraceReader<Peaks, W>;

    ghost second_report = { λ pair. report_behind (W.text pair.writer) };

    fn second(
        &self,
        alloc: Global,
        first: SuppressionsTaker,
    ) -> Result<TraceReader<Peaks, W>, NoMemory> {
        let tables = first.tables;
        let Ok(peaks) = Peaks::new(alloc) else {
            drop(tables);
            return Err(NoMemory);
        };
        Ok(TraceReader::new(tables, peaks, self.writer))
    }
}

/// Reads the named suppressions file and then the named trace, and gives what is written of it.
pub fn run_suppressed<W: TraceWriter<Peaks> + Copy + Drop, S: Store, O: Sink>(
    context: &RunContext,
    names: &PairNames,
    writer: W,
    store: &mut S,
    out: &mut O,
) -> Result<W::Rest, Halt>
    requires { S.opens store.old < 2 ^ 63 }
    ensures { Readies S.Store O.Sink W.Rest.bytes context.now
        (names.now.first.now ∷ names.now.second.now ∷ [])
        (plan_behind (Some names.now.first.now) names.now.second.now (W.text writer))
        store.old store.new out.old out.new result }
{
    let first = SuppressionsTaker::new(context.alloc);
    run_pair(
        context,
        names,
        &SuppressedTrace { writer },
        first,
        store,
        out,
    )
}
