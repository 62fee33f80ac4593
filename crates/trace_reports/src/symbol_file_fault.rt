//! The faults of a table of symbols, as messages tell them. When each comes is decided where its lines are read.
ghost use Rattle.std.specs.Prelude.{◌≡◌};

use command_frame::{Fault, FaultStatus};
use hp_num::{NoMemory, put_bytes};
use interpret::SymbolFault;

/// What is wrong with a table of symbols.
#[derive(Clone, Copy)]
pub enum SymbolFileFault {
    /// A line can't follow the lines before it.
    Line(SymbolFault),
}

impl Fault for SymbolFileFault {
    ghost use Rattle.trace_reports.specs.SymbolFileFault.{told as told_of};

    ghost told = { told_of };

    fn put_text(&self, out: &mut Vec<u8>) -> Result<(), NoMemory> {
        match self {
            SymbolFileFault::Line(fault) => put_bytes(out, fault.text().as_bytes()),
        }
    }

    fn status(&self) -> FaultStatus {
        match self {
            SymbolFileFault::Line(_) => FaultStatus::Malformed,
        }
    }
}
