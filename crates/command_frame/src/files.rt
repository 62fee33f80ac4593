//! Opening named files and reading them by lines, to a message where that ends before the last line.
ghost use Rattle.std.specs.Prelude.{◌≡◌, ◌≢◌, ◌⊎◌, ◌-◌, ◌^◌, ◌<◌};
ghost use Rattle.command_frame.specs.Answer.{memory_answer, verdict_answer};
ghost use Rattle.command_frame.specs.Halts.{halt_answer, status_code};
ghost use Rattle.command_frame.specs.HaltsWith.{HaltsUnopened, StopsWith};
ghost use Rattle.command_frame.specs.NewTaker.{IsNewTaker, SameTaker};
ghost use Rattle.command_frame.specs.Report.{Verdict};
ghost use Rattle.command_frame.specs.Taker.{Refuses};
ghost use Rattle.command_frame.specs.TakesFile.{HasLimits, KeepsLimits, MayReadLines, RanToEnd, TakesFile};
ghost use Rattle.command_frame.specs.RunsTo.{Reads};
ghost use Rattle.command_frame.specs.Texts.{texts_of};

use crate::context::RunContext;
use crate::fault::Fault;
use crate::halt::Halt;
use crate::lines::{LinesStop, pass_on, read_through_buffer};
use crate::taker::{LineRefusal, LineTaker};
use hp_outside::{Failed, LineFault, LineReader, OpenFault, Sink, Store};
use std::alloc::Global;

/// Takes all lines of the current file, and writes all that they give to standard output.
fn read_current_file<T: LineTaker, S: Store, O: Sink>(
    alloc: Global,
    lines: &mut LineReader,
    taker: &mut T,
    store: &mut S,
    out: &mut O,
) -> Result<(), LinesStop<T::Fault>>
    requires file { MayReadLines S.Store lines.old store.old }
    requires taker { IsNewTaker T.LineTaker taker.old }
    ensures run { RanToEnd S.Store O.Sink T.Fault.told T.LineTaker taker.old taker.new lines.old
        store.old store.new out.old out.new result }
    ensures file { TakesFile S.Store O.Sink lines.old lines.new store.old store.new out.old out.new
        result }
    ensures taker { SameTaker T.LineTaker taker.old taker.new result }
{
    let mut buffer = Vec::new(alloc);
    let taken = read_through_buffer(lines, taker, store, out, &mut buffer);
    match pass_on(&mut buffer, out) {
        Ok(()) => taken,
        Err(Failed) => Err(LinesStop::WriteFailed),
    }
}

impl RunContext {
    /// The halt where a file wasn't opened.
    pub(crate) fn unopened(&self, name: &str, fault: OpenFault) -> Halt
        ensures { HaltsUnopened self.now.texts name.now fault result }
    {
        Halt::unreadable(self.alloc, &self.texts, name, fault.text())
    }

    /// The halt where what was read of a file is refused.
    pub(crate) fn refused<F: Fault>(&self, name: &str, refusal: LineRefusal<F>) -> Halt
        ensures judges { (verdict : Verdict) → Refuses F.told refusal verdict
            → (halt_answer (texts_of self.now.texts) result
            ≡ verdict_answer (texts_of self.now.texts) name.now verdict)
            ⊎ (halt_answer (texts_of self.now.texts) result ≡ memory_answer (texts_of self.now.texts)) }
        ensures write { status_code result.status ≢ 4 }
    {
        match refusal {
            LineRefusal::Fault(fault) => Halt::at_file(self.alloc, &self.texts, name, &fault),
            LineRefusal::NoMemory => Halt::no_memory(),
        }
    }

    /// The halt where not all lines of a file were taken.
    fn stopped<F: Fault>(&self, name: &str, stop: LinesStop<F>) -> Halt
        ensures { StopsWith F.told (texts_of self.now.texts) name.now stop result }
    {
        match stop {
            LinesStop::AtLine { number, fault } => Halt::at_line(
                self.alloc,
                &self.texts,
                name,
                number,
                &fault,
            ),
            LinesStop::ReadFailed => Halt::unreadable(
                self.alloc,
                &self.texts,
                name,
                LineFault::ReadFailed.text(),
            ),
            LinesStop::WriteFailed => Halt::write_failed(),
            LinesStop::NoMemory => Halt::no_memory(),
        }
    }
}

/// Opens the named file and takes all its lines.
pub fn read_named_file<T: LineTaker, S: Store, O: Sink>(
    context: &RunContext,
    lines: &mut LineReader,
    name: &str,
    taker: &mut T,
    store: &mut S,
    out: &mut O,
) -> Result<(), Halt>
    requires opens { S.opens store.old < 2 ^ 64 - 1 }
    requires limits { HasLimits lines.old context.now.limits }
    requires taker { IsNewTaker T.LineTaker taker.old }
    ensures read { Reads S.Store O.Sink context.now name.now (T.report taker.old)
        (T.has_taken taker.new)
        store.old store.new out.old out.new result }
    ensures limits { KeepsLimits lines.old lines.new }
    ensures taker { SameTaker T.LineTaker taker.old taker.new result }
{
    lines.start();
    match store.open(name) {
        Ok(()) => {}
        Err(fault) => return Err(context.unopened(name, fault)),
    }
    match read_current_file(context.alloc, lines, taker, store, out) {
        Ok(()) => Ok(()),
        Err(stop) => Err(context.stopped(name, stop)),
    }
}
