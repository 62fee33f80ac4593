//! What is told of a trace that is no recording. When it isn't is decided where it is read.
ghost use Rattle.std.specs.Prelude.{◌≡◌};

use command_frame::{Fault, FaultStatus};
use hp_num::{NoMemory, put_bytes};

/// No recording goes on with the line, or ends here.
#[derive(Clone, Copy)]
pub struct NotRecorded;

impl Fault for NotRecorded {
    ghost use Rattle.heaprec_commands.specs.CheckReport.{not_a_recording};

    ghost told = { λ _. not_a_recording };

    fn put_text(&self, out: &mut Vec<u8>) -> Result<(), NoMemory> {
        put_bytes(out, b"not a recording")
    }

    fn status(&self) -> FaultStatus {
        FaultStatus::Malformed
    }
}
