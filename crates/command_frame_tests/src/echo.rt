//! A taker that gives each line back while the file is read.
ghost use Rattle.std.specs.Prelude.{◌≡◌};

use command_frame::{Fault, FaultStatus, LineRefusal, LineReport, LineTaker};
use hp_num::{NoMemory, put_bytes};
use std::alloc::Global;

/// The line `bad`, or a file that is refused at its end.
#[derive(Clone, Copy, Debug, PartialEq, Eq)]
pub struct Bad;

impl Fault for Bad {
    ghost use Rattle.command_frame_tests.specs.Echo.{bad};

    ghost told = { λ _. bad };

    fn put_text(&self, out: &mut Vec<u8>) -> Result<(), NoMemory> {
        put_bytes(out, b"bad")
    }

    fn status(&self) -> FaultStatus {
        FaultStatus::Malformed
    }
}

/// Gives each line back, and `end` behind them all or a refusal.
#[derive(Clone, Copy, Debug)]
pub struct Echo {
    /// Whether the file is refused at its end.
    pub refuses: bool,
}

impl LineTaker for Echo {
    ghost use Rattle.command_frame_tests.specs.Echo.{echo_report};

    type Fault = Bad;

    ghost report = { λ echo. echo_report echo.refuses };

    ghost has_taken = { λ _ _. Unit {0} };

    ghost is_sound = { λ _. Unit {0} };

    ghost measure = { λ _. 0 };

    fn line(&mut self, line: &[u8], output: &mut Vec<u8>) -> Result<(), LineRefusal<Bad>> {
        if line == b"bad".as_slice() {
            return Err(LineRefusal::Fault(Bad));
        }
        let length = output.len();
        put_bytes(output, line)?;
        match put_bytes(output, b"\n") {
            Ok(()) => Ok(()),
            Err(NoMemory) => {
                output.truncate(length);
                Err(LineRefusal::NoMemory)
            }
        }
    }

    fn end(&self, _ended: bool) -> Result<(), Bad> {
        Ok(())
    }
}

impl LineReport for Echo {
    type Rest = Vec<u8>;

    fn finish(self, alloc: Global) -> Result<Vec<u8>, LineRefusal<Bad>> {
        if self.refuses {
            return Err(LineRefusal::Fault(Bad));
        }
        let mut output = Vec::new(alloc);
        put_bytes(&mut output, b"end\n")?;
        Ok(output)
    }

    fn close(self) {}
}
