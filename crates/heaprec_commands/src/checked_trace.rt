//! The taker of the lines of a trace that is checked. What lines a recording may begin with is the business of `order_check`.
ghost use Rattle.std.specs.Prelude.{◌≡◌, IfOk};
ghost use Rattle.heaprec_commands.specs.CheckReport.{checked_text};

use crate::check_refusal::NotRecorded;
use command_frame::{LineRefusal, LineReport, LineTaker};
use hp_num::{NoMemory, put_bytes, put_dec};
use order_check::{CheckRefusal, OrderCheck};
use std::alloc::Global;

/// What was read of a trace.
#[derive(Drop)]
pub struct CheckedTrace {
    pub check: OrderCheck,
}

impl LineTaker for CheckedTrace {
    ghost use Rattle.order_check.specs.CheckState.{HasTaken};
    ghost use Rattle.heaprec_commands.specs.CheckReport.{check_report};

    type Fault = NotRecorded;

    ghost report = { λ reader. check_report reader.check.job };

    ghost has_taken = { λ reader lines. HasTaken reader.check lines };

    ghost is_sound = { λ _. Unit {0} };

    ghost measure = { λ _. 0 };

    fn line(&mut self, line: &[u8], _output: &mut Vec<u8>) -> Result<(), LineRefusal<NotRecorded>> {
        match self.check.line(line) {
            Ok(()) => Ok(()),
            Err(CheckRefusal::NotRecorded) => Err(LineRefusal::Fault(NotRecorded)),
            Err(CheckRefusal::NoMemory) => Err(LineRefusal::NoMemory),
        }
    }

    fn end(&self, ended: bool) -> Result<(), NotRecorded> {
        match self.check.end(ended) {
            Some(_) => Ok(()),
            None => Err(NotRecorded),
        }
    }
}

impl LineReport for CheckedTrace {
    type Rest = Vec<u8>;

    fn finish(self, alloc: Global) -> Result<Vec<u8>, LineRefusal<NotRecorded>> {
        match self.check.end(true) {
            Some(events) => Ok(recording_of(alloc, events)?),
            None => Err(LineRefusal::Fault(NotRecorded)),
        }
    }

    fn close(self) {}
}

/// The line that says of how many events a trace is a recording.
fn recording_of(alloc: Global, events: u64) -> Result<Vec<u8>, NoMemory>
    ensures { IfOk result (λ text. text.items ≡ checked_text events) }
{
    let mut text = Vec::new(alloc);
    put_bytes(&mut text, b"a recording of ")?;
    put_dec(&mut text, events)?;
    put_bytes(&mut text, b" events\n")?;
    Ok(text)
}
