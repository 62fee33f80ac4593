//! The reader of a trace for every command that writes of one once it was read. What each of them writes is the part of its
//! writer.
ghost use Rattle.std.specs.Prelude.{◌≡◌, []};
ghost use Rattle.trace_reading.specs.Following.{IsNew};
ghost use Rattle.trace_reading.specs.ReadTrace.{HasRead, HasReadNothing, IsReady, measure_of};
ghost use Rattle.trace_reading.specs.TraceReport.{patterns_before, trace_report};

use crate::fault::TraceFault;
use crate::follower::Follower;
use crate::trace::Trace;
use crate::trace_writer::TraceWriter;
use command_frame::{LineRefusal, LineReport, LineTaker};
use ht_trace::Tables;
use std::alloc::Global;

/// What was read of a trace, and what is to be written of it.
#[derive(Drop)]
pub struct TraceReader<F, W> {
    trace: Trace<F>,
    /// How many patterns were given before the first line.
    given: u32,
    writer: W,
}

impl<F: Follower, W: TraceWriter<F>> TraceReader<F, W> {
    /// A reader that has read no line, over tables that have read none and may hold the patterns of some suppressions, with
    /// a follower that has followed nothing.
    pub fn new(tables: Tables, follower: F, writer: W) -> TraceReader<F, W>
        requires nodes { tables.nodes ≡ [] }
        requires infos { tables.infos ≡ [] }
        requires new { IsNew tables (F.view follower) }
        ensures no_lines { HasReadNothing F.view tables result.trace result.given }
        ensures writer { result.writer ≡ writer }
    {
        let given = tables.suppressions();
        TraceReader {
            trace: Trace { tables, follower },
            given,
            writer,
        }
    }
}

impl<F: Follower, W: TraceWriter<F>> LineTaker for TraceReader<F, W> {
    type Fault = TraceFault;

    ghost report = { λ reader.
        trace_report F.faults (patterns_before reader.given reader.trace.tables)
        (W.text reader.writer (patterns_before reader.given reader.trace.tables)) };

    ghost has_taken = { λ reader.
        HasRead F.view reader.trace (patterns_before reader.given reader.trace.tables) };

    ghost is_sound = { λ reader. IsReady F.view reader.trace reader.given };

    ghost measure = { λ reader. measure_of F.view reader.trace };

    fn line(&mut self, line: &[u8], _output: &mut Vec<u8>) -> Result<(), LineRefusal<TraceFault>> {
        self.trace.line(line)
    }

    fn end(&self, _ended: bool) -> Result<(), TraceFault> {
        self.trace.end()
    }

    #[inline(always)]
    fn front(&mut self, ready: &[u8], _output: &mut Vec<u8>) -> Option<usize> {
        self.trace.front(ready)
    }
}

impl<F: Follower, W: TraceWriter<F> + Drop> LineReport for TraceReader<F, W> {
    type Rest = W::Rest;

    fn finish(self, alloc: Global) -> Result<W::Rest, LineRefusal<TraceFault>> {
        let TraceReader { trace, writer, .. } = self;
        let Trace { tables, follower } = trace;
        let rest = writer.write(alloc, tables, follower)?;
        Ok(rest)
    }

    fn close(self) {
        let TraceReader { trace, .. } = self;
        let Trace { tables, follower } = trace;
        drop(tables);
        follower.close();
    }
}
