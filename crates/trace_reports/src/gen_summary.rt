//! The summary of a generated trace: its lines are read as they are made, and none is kept. That of an event isn't made: what it
//! says is read.
ghost use Rattle.std.specs.Prelude.{◌≡◌, [], IfOk, OnOk};
ghost use Rattle.trace_gen.specs.GeneratedTrace.{move_line};
ghost use Rattle.trace_gen.specs.GeneratorState.{lines_yet, move_of};
ghost use Rattle.trace_gen.specs.Sizes.{sizes_of};
ghost use Rattle.trace_reading.specs.TotalsView.{totals_view};
ghost use Rattle.trace_reading.specs.ReadTrace.{HasRead};
ghost use Rattle.trace_reports.specs.GenReport.{gen_summary};
ghost use Rattle.trace_reports.specs.GenTaken.{MayRead, MayReadLine, ReadsLine};
ghost use Rattle.trace_reports.specs.SummaryReport.{summary_written};

use command_frame::LineRefusal;
use hp_num::NoMemory;
use ht_lines::EventKind;
use ht_print::put_totals_summary;
use ht_trace::Tables;
use peak_costs::PeakTotals;
use sound_traces::generated_traces;
use std::alloc::Global;
use trace_gen::{GeneratedEvent, Generator, GeneratorOptions};
use trace_reading::Trace;

/// The summary of the trace that is generated from these numbers. `NoMemory` where memory is wanting.
pub fn gen_summary(alloc: Global, options: &GeneratorOptions) -> Result<Vec<u8>, NoMemory>
    ensures { IfOk result (λ summary. summary.items ≡ gen_summary (sizes_of options.now)) }
{
    generated_traces();
    let mut generator = Generator::new(alloc, options)?;
    let follower = PeakTotals::new(alloc);
    let tables = Tables::new(alloc);
    let mut trace = Trace { tables, follower };
    let summary = summarize(alloc, &mut generator, &mut trace);
    // By name: a proof goes through all parts of what an exit lets go.
    drop(trace);
    drop(generator);
    summary
}

/// The summary of the lines that a generator has yet to make, none of which has a fault.
fn summarize(
    alloc: Global,
    generator: &mut Generator,
    trace: &mut Trace<PeakTotals>,
) -> Result<Vec<u8>, NoMemory>
    requires { MayRead generator.old trace.old }
    ensures { IfOk result
        (λ summary. summary.items ≡ summary_written [] (lines_yet generator.old)) }
{
    read_lines(alloc, generator, trace)?;
    let mut summary = Vec::new(alloc);
    put_totals_summary(&trace.follower, &mut summary)?;
    Ok(summary)
}

/// Reads all lines of a generator, none of which has a fault: those of events by what they say, and the others as they are
/// made.
fn read_lines(
    alloc: Global,
    generator: &mut Generator,
    trace: &mut Trace<PeakTotals>,
) -> Result<(), NoMemory>
    requires { MayRead generator.old trace.old }
    ensures { OnOk result (HasRead totals_view trace.new [] (lines_yet generator.old)) }
{
    let mut text = Vec::new(alloc);
    'lines: loop {
        match generator.next_event() {
            Some(event) => read_event(trace, event)?,
            None => {
                text.clear();
                match generator.line(&mut text) {
                    Ok(true) => {}
                    Ok(false) => return Ok(()),
                    Err(NoMemory) => return Err(NoMemory),
                }
                read_line(trace, text.split_at(text.len() - 1).0)?;
            }
        }
    }
}

/// Reads the line of an event, which has no fault.
#[inline(always)]
fn read_event(trace: &mut Trace<PeakTotals>, event: GeneratedEvent) -> Result<(), NoMemory>
    requires { MayReadLine trace.old (move_line (move_of event)) }
    ensures { OnOk result (ReadsLine trace.old trace.new (move_line (move_of event))) }
{
    let kind = if event.frees {
        EventKind::Free
    } else {
        EventKind::Allocation
    };
    match trace.event(kind, event.info) {
        Ok(()) => Ok(()),
        Err(LineRefusal::NoMemory) => Err(NoMemory),
        Err(LineRefusal::Fault(_)) => unreachable!(),
    }
}

/// Reads a line, which has no fault.
fn read_line(trace: &mut Trace<PeakTotals>, line: &[u8]) -> Result<(), NoMemory>
    requires { MayReadLine trace.old line.now }
    ensures { OnOk result (ReadsLine trace.old trace.new line.now) }
{
    match trace.line(line) {
        Ok(()) => Ok(()),
        Err(LineRefusal::NoMemory) => Err(NoMemory),
        Err(LineRefusal::Fault(_)) => unreachable!(),
    }
}
