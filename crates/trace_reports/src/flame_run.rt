//! Flame stacks: a line for each list of frame texts of one trace's stacks, for a flame graph to be drawn of. They are written
//! while they are made.
ghost use Rattle.std.specs.Prelude.{◌^◌, ◌<◌, [], ◌∷◌};
ghost use Rattle.command_frame.specs.RunsTo.{Readies};
ghost use Rattle.trace_reading.specs.TraceReport.{trace_plan};
ghost use Rattle.trace_reports.specs.FlameReport.{flame_written};

use command_frame::{Halt, Paged, PieceMaker, ReadyText, RunContext};
use hp_num::NoMemory;
use hp_outside::{Sink, Store};
use ht_print::{FlameCost, FlameLines, stack_costs};
use ht_trace::{Style, Tables};
use peak_costs::Peaks;
use stack_trees::lists_from_root;
use std::alloc::Global;
use trace_reading::{TraceWriter, run_trace};

/// The lines of flame stacks, one after another.
#[derive(Drop)]
pub struct FlameText {
    lines: FlameLines,
}

impl PieceMaker for FlameText {
    ghost rest = { λ text. text.lines.rest };

    ghost pieces = { λ text. text.lines.left };

    ghost longest = { λ text. text.lines.longest };

    fn longest_piece(&self) -> usize {
        self.lines.longest_line()
    }

    fn piece(&mut self, output: &mut Vec<u8>) -> Result<bool, NoMemory> {
        self.lines.put_next(output)
    }
}

/// Writes the flame stacks.
#[derive(Clone, Copy)]
pub struct FlameWriter {
    cost: FlameCost,
}

impl TraceWriter<Peaks> for FlameWriter {
    ghost use Rattle.trace_reports.specs.FlameReport.{flame_written};

    type Rest = Paged<FlameText>;

    ghost text = { λ writer. flame_written writer.cost };

    fn write(
        &self,
        alloc: Global,
        tables: Tables,
        peaks: Peaks,
    ) -> Result<Paged<FlameText>, NoMemory> {
        let costs = stack_costs(alloc, self.cost, &peaks);
        drop(peaks);
        let lists = lists_from_root(alloc, &tables, Style::Plain);
        drop(tables);
        let lines = FlameLines::of_lists(alloc, lists?, costs?)?;
        let text = Paged::new(alloc, FlameText { lines })?;
        Ok(text)
    }
}

/// Reads the named trace, and gives its flame stacks by this cost.
pub fn run_flame<S: Store, O: Sink>(
    context: &RunContext,
    trace: &str,
    cost: FlameCost,
    store: &mut S,
    out: &mut O,
) -> Result<Paged<FlameText>, Halt>
    requires { S.opens store.old < 2 ^ 63 }
    ensures { Readies S.Store O.Sink ⟦<Paged<FlameText> as ReadyText>⟧.bytes context.now
        (trace.now ∷ [])
        (trace_plan trace.now (flame_written cost []))
        store.old store.new out.old out.new result }
{
    run_trace(context, trace, FlameWriter { cost }, store, out)
}
