//! The line of an event of an info, which is read without its text.
ghost use Rattle.std.specs.Prelude.{◌≡◌, ◌+◌, ◌^◌, ◌≤◌, IfErr, OnOk};
ghost use Rattle.trace_reading.specs.EventText.{event_text, unheld_fault};
ghost use Rattle.trace_reading.specs.ReadTrace.{HasReadLine, IsSound, RefusesLine, measure_of};

use crate::fault::TraceFault;
use crate::follower::Follower;
use crate::front::event_of_info;
use crate::trace::Trace;
use command_frame::LineRefusal;
use hp_num::hexadecimal_texts;
use ht_lines::EventKind;
use ht_trace::{LineError, Tables};

impl<F: Follower> Trace<F> {
    /// Reads the line of an event of an info, as `line` would read its text.
    /// A loop over events has all of it in its body.
    #[inline(always)]
    pub fn event(&mut self, kind: EventKind, info: u32) -> Result<(), LineRefusal<TraceFault>>
        requires sound { IsSound F.view self.old }
        requires room { measure_of F.view self.old + 3 ≤ 2 ^ 34 }
        ensures read { OnOk result
            (HasReadLine F.faults F.view self.old self.new (event_text kind info)) }
        ensures fault { IfErr result
            (λ refusal. RefusesLine F.faults F.view self.old (event_text kind info) refusal) }
        ensures tables { self.new.tables ≡ self.old.tables }
    {
        hexadecimal_texts();
        let (size, stack) = match self.follower.ledger().info(info) {
            Some(held) => held,
            None => {
                return Err(LineRefusal::Fault(TraceFault::Line(unheld_fault(&self.tables))));
            }
        };
        let event = event_of_info(kind, info, stack, size);
        match self.follower.event(event, &self.tables) {
            Ok(()) => Ok(()),
            Err(LineRefusal::Fault(fault)) => Err(LineRefusal::Fault(TraceFault::Event(fault))),
            Err(LineRefusal::NoMemory) => Err(LineRefusal::NoMemory),
        }
    }
}

/// The fault of the line of an event whose info isn't held.
fn unheld_fault(tables: &Tables) -> LineError
    ensures { result ≡ unheld_fault tables.now.version }
{
    match tables.end() {
        Ok(()) => LineError::UnknownAllocation,
        Err(error) => error,
    }
}
