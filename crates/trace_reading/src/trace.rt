//! The one reader of a trace: its tables, and beside them what follows its events. How lines come from a file, and what is made
//! of them, is no part of it.
ghost use Rattle.std.specs.Prelude.{◌≡◌, ◌+◌, ◌^◌, ◌<◌, ◌≤◌, length, IfErr, OnOk};
ghost use Rattle.ht_trace.specs.Continues.{Continues};
ghost use Rattle.trace_reading.specs.Following.{HasFollowed, MayTake};
ghost use Rattle.trace_reading.specs.ReadTrace.{HasNoEventFault, HasReadFirst, HasReadLine, IsSound, MayEnd};
ghost use Rattle.trace_reading.specs.ReadTrace.{RefusesEnd, RefusesLine, RefusesStep, measure_of};

use crate::fault::TraceFault;
use crate::follower::Follower;
use crate::front::line_at_front;
use command_frame::LineRefusal;
use ht_trace::{LineError, Step, Tables};

/// The tables of a trace and what follows its events, which are grown step by step together.
#[derive(Drop)]
pub struct Trace<F> {
    pub tables: Tables,
    pub follower: F,
}

impl<F: Follower> Trace<F> {
    /// Reads the next line. `Fault` exactly where it has one after the lines before it, `NoMemory` where memory is wanting;
    /// this is of no use then.
    pub fn line(&mut self, line: &[u8]) -> Result<(), LineRefusal<TraceFault>>
        requires sound { IsSound F.view self.old }
        requires short { length line.now < 2 ^ 32 }
        requires room { measure_of F.view self.old + length line.now ≤ 2 ^ 34 }
        ensures read { OnOk result (HasReadLine F.faults F.view self.old self.new line.now) }
        ensures fault { IfErr result
            (λ refusal. RefusesLine F.faults F.view self.old line.now refusal) }
        ensures continues { Continues self.old.tables self.new.tables }
    {
        self.follower.goes_on();
        match self.tables.line(line) {
            Ok(step) => match take_step(&mut self.follower, &self.tables, step) {
                Ok(()) => Ok(()),
                Err(refusal) => Err(refusal),
            },
            Err(LineError::NoMemory) => Err(LineRefusal::NoMemory),
            Err(error) => Err(LineRefusal::Fault(TraceFault::Line(error))),
        }
    }

    /// Whether the trace may end here.
    pub fn end(&self) -> Result<(), TraceFault>
        ensures no_fault { OnOk result (MayEnd F.view self.now) }
        ensures fault { IfErr result (λ fault. RefusesEnd F.view self.now fault) }
    {
        match self.tables.end() {
            Ok(()) => Ok(()),
            Err(error) => Err(TraceFault::Line(error)),
        }
    }

    /// Reads the line at the front of the bytes, as `line` would, and answers how many bytes it has with its line feed, where
    /// it is that of an event in its usual form, its info is held, and it has no fault. Where it answers `None`, nothing was
    /// read.
    #[inline(always)]
    pub fn front(&mut self, ready: &[u8]) -> Option<usize>
        requires sound { IsSound F.view self.old }
        requires room { measure_of F.view self.old + length ready.now ≤ 2 ^ 34 }
        ensures tables { self.new.tables ≡ self.old.tables }
        ensures read { HasReadFirst F.faults F.view self.old self.new ready.now result }
    {
        let line = line_at_front(self.follower.ledger(), ready)?;
        match self.follower.event(line.event, &self.tables) {
            Ok(()) => Some(line.bytes),
            Err(_) => None,
        }
    }
}

/// Takes what a line brings beside the tables, which have it already.
fn take_step<F: Follower>(
    follower: &mut F,
    tables: &Tables,
    step: Step,
) -> Result<(), LineRefusal<TraceFault>>
    requires { MayTake tables.now (F.view follower.old) step }
    ensures followed { OnOk result
        (HasFollowed tables.now (F.view follower.old) (F.view follower.new) step) }
    ensures no_fault { OnOk result
        (HasNoEventFault F.faults tables.now (F.view follower.old) step) }
    ensures fault { IfErr result
        (λ refusal. RefusesStep F.faults tables.now (F.view follower.old) step refusal) }
{
    match step {
        Step::Nothing => Ok(()),
        Step::Stack => {
            follower.stack(tables)?;
            Ok(())
        }
        Step::Info { stack, size } => {
            follower.info(stack, size, tables)?;
            Ok(())
        }
        Step::Event { event } => match follower.event(event, tables) {
            Ok(()) => Ok(()),
            Err(LineRefusal::Fault(fault)) => Err(LineRefusal::Fault(TraceFault::Event(fault))),
            Err(LineRefusal::NoMemory) => Err(LineRefusal::NoMemory),
        },
    }
}
