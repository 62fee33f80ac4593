//! The faults of a trace, what they are called, and their kinds. When each comes is decided where the lines are read.
ghost use Rattle.std.specs.Prelude.{◌≡◌};
ghost use Rattle.trace_reading.specs.TraceFault.{event_status, line_status, told};

use command_frame::{Fault, FaultStatus};
use hp_num::{NoMemory, put_bytes};
use ht_trace::LineError;
use live_ledger::EventFault;

/// What is wrong with a trace.
#[derive(Clone, Copy)]
pub enum TraceFault {
    /// The line can't follow the lines before it.
    Line(LineError),
    /// The event can't follow the events before it.
    Event(EventFault),
}

impl TraceFault {
    /// What the fault is called in a message.
    fn text(self) -> &'static str
        ensures { result.now ≡ (told self).text }
    {
        match self {
            TraceFault::Line(error) => error.text(),
            TraceFault::Event(fault) => fault.text(),
        }
    }
}

impl Fault for TraceFault {
    ghost use Rattle.trace_reading.specs.TraceFault.{told as told_of};

    ghost told = { told_of };

    fn put_text(&self, out: &mut Vec<u8>) -> Result<(), NoMemory> {
        put_bytes(out, self.text().as_bytes())
    }

    fn status(&self) -> FaultStatus {
        match self {
            TraceFault::Line(error) => line_kind(*error),
            TraceFault::Event(fault) => event_kind(*fault),
        }
    }
}

/// The kind of a line's fault. Want of memory is no fault of a line, and never told as one.
fn line_kind(error: LineError) -> FaultStatus
    ensures { result ≡ line_status error }
{
    match error {
        LineError::TooDeep | LineError::TooMany => FaultStatus::PastLimit,
        LineError::BadField
        | LineError::MissingField
        | LineError::ExtraField
        | LineError::NotInterpreted
        | LineError::NotRaw
        | LineError::BadVersion
        | LineError::NoVersion
        | LineError::SecondVersion
        | LineError::UnknownString
        | LineError::UnknownInstruction
        | LineError::UnknownParent
        | LineError::UnknownTrace
        | LineError::UnknownAllocation
        | LineError::NoMemory => FaultStatus::Malformed,
    }
}

fn event_kind(fault: EventFault) -> FaultStatus
    ensures { result ≡ event_status fault }
{
    match fault {
        EventFault::FreeOfNothing => FaultStatus::Malformed,
        EventFault::CostTooLarge => FaultStatus::PastLimit,
    }
}
