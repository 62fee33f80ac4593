//! A taker of lines, of which those of one byte give nothing, that counts its calls.
ghost use Rattle.std.specs.Prelude.{◌≡◌, ◌≤◌, ◌++◌, IsTrue, codes, drop, length};
ghost use Rattle.command_frame_tests.specs.Signs.{no_fault, sign_report};

use command_frame::{Fault, FaultStatus, LineRefusal, LineTaker};
use hp_num::{NoMemory, put_bytes};

/// No line has a fault.
#[derive(Clone, Copy, Debug)]
pub struct NoFault;

impl Fault for NoFault {
    ghost told = { λ _. no_fault };

    fn put_text(&self, _: &mut Vec<u8>) -> Result<(), NoMemory> {
        Ok(())
    }

    fn status(&self) -> FaultStatus {
        FaultStatus::Malformed
    }
}

/// How many lines were taken, and how many of them one by one.
#[derive(Clone, Copy, Debug)]
pub struct Signs {
    pub at_once: bool,
    pub taken: u64,
    pub called: u64,
}

impl LineTaker for Signs {
    type Fault = NoFault;

    ghost report = { λ _. sign_report };

    ghost has_taken = { λ signs lines. length lines ≡ signs.taken };

    ghost is_sound = { λ signs. signs.called ≤ signs.taken };

    ghost measure = { λ signs. signs.taken };

    fn line(&mut self, line: &[u8], output: &mut Vec<u8>) -> Result<(), LineRefusal<NoFault>> {
        if 1 < line.len() {
            put_bytes(output, line)?;
        }
        self.taken += 1;
        self.called += 1;
        Ok(())
    }

    fn end(&self, _ended: bool) -> Result<(), NoFault> {
        Ok(())
    }

    fn front(&mut self, ready: &[u8], _output: &mut Vec<u8>) -> Option<usize> {
        if self.at_once && begins_with_sign(ready) {
            self.taken += 1;
            return Some(2);
        }
        None
    }
}

/// Whether a line of one sign stands at the front.
fn begins_with_sign(ready: &[u8]) -> bool
    ensures { IsTrue result → ready.now ≡ codes "+\n" ++ drop 2 ready.now }
{
    ready.starts_with(b"+\n")
}
