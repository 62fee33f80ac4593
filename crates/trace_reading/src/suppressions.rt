//! The patterns of a suppressions file, which stand before those of a trace. What they suppress is no part of it.
ghost use Rattle.std.specs.Prelude.{◌≡◌, ℕ, ◌+◌, ◌≤◌, List, [], ◌∷◌, ◌++◌};
ghost use Rattle.ht_trace.specs.StandsFor.{StandsAfter};
ghost use Rattle.trace_reading.specs.SuppressionsReport.{IsGiven};

use crate::fault::TraceFault;
use command_frame::{LineRefusal, LineTaker};
use ht_trace::{LineError, Tables};
use std::alloc::Global;

/// What takes the lines of a suppressions file: the tables of the trace that is read behind it, which have read no line.
#[derive(Drop)]
pub struct SuppressionsTaker {
    pub(crate) tables: Tables,
}

impl SuppressionsTaker {
    /// A taker that has taken no line. It takes no memory.
    pub fn new(alloc: Global) -> Self
        ensures given { IsGiven result.tables }
        ensures stands { StandsAfter result.tables [] [] }
    {
        SuppressionsTaker {
            tables: Tables::new(alloc),
        }
    }
}

impl LineTaker for SuppressionsTaker {
    ghost use Rattle.trace_reading.specs.SuppressionsReport.{suppressions_report};

    type Fault = TraceFault;

    ghost report = { λ _. suppressions_report };

    ghost has_taken = { λ taker lines. StandsAfter taker.tables lines [] };

    ghost is_sound = { λ taker. IsGiven taker.tables };

    ghost measure = { λ _. 0 };

    fn line(&mut self, line: &[u8], _output: &mut Vec<u8>) -> Result<(), LineRefusal<TraceFault>> {
        match self.tables.suppress(line) {
            Ok(()) => Ok(()),
            Err(LineError::NoMemory) => Err(LineRefusal::NoMemory),
            Err(error) => Err(LineRefusal::Fault(TraceFault::Line(error))),
        }
    }

    fn end(&self, _ended: bool) -> Result<(), TraceFault> {
        Ok(())
    }
}
