//! What is told of a refused line of a script or of a modules file. When a line is refused is decided where it is read.
ghost use Rattle.std.specs.Prelude.{◌≡◌};
ghost use Rattle.heaprec_commands.specs.FaultTold.{fault_status};

use command_frame::{Fault, FaultStatus};
use hp_num::{NoMemory, put_bytes};
use record_scripts::ScriptFault;

/// A line that is refused.
#[derive(Clone, Copy)]
pub struct RefusedLine {
    pub fault: ScriptFault,
}

impl Fault for RefusedLine {
    ghost use Rattle.heaprec_commands.specs.FaultTold.{told as told_of};

    ghost told = { λ refused. told_of refused.fault };

    fn put_text(&self, out: &mut Vec<u8>) -> Result<(), NoMemory> {
        put_bytes(out, self.fault.text().as_bytes())
    }

    fn status(&self) -> FaultStatus {
        fault_status(self.fault)
    }
}

/// Its kind: with too many events the input is past a limit.
fn fault_status(fault: ScriptFault) -> FaultStatus
    ensures { result ≡ fault_status fault }
{
    match fault {
        ScriptFault::TooManyEvents => FaultStatus::PastLimit,
        _ => FaultStatus::Malformed,
    }
}
