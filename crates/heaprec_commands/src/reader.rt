//! The taker of the lines of a modules file or of a script. Which files are read, and in which order, is no part of it.
ghost use Rattle.std.specs.Prelude.{◌≡◌, ◌<◌, length};
ghost use Rattle.record_scripts.specs.Job.{Job};

use crate::ready_lines::take_front;
use crate::refusal::RefusedLine;
use crate::take_line::take_line;
use command_frame::{LineRefusal, LineTaker};
use record_scripts::{ScriptFault, Scripts};
use std::marker::{Brand, PhantomData};

/// What the lines of a file are.
#[derive(Clone, Copy)]
pub enum InputKind {
    /// Lines of modules.
    Modules,
    /// Turns of the thread whose script was opened last.
    Script,
}

/// What was read before a file, for proofs: a program carries nothing of it.
pub trait Start {
    ghost use Rattle.heaprec_commands.specs.declared.reader.InputKind.{InputKind};

    /// What the lines of the file are.
    ghost kind: { InputKind };

    /// The job before its first line.
    ghost job: { Job };
}

impl Start for Brand {
    ghost use Rattle.heaprec_commands.specs.declared.reader.InputKind.TheVariants.{Modules};
    ghost use Rattle.heaprec_commands.specs.FileLines.{no_job};

    ghost kind = { Modules };

    ghost job = { no_job 0 };
}

/// What was read of a file, behind what `B` says.
#[derive(Drop)]
pub struct FileReader<B: Start> {
    pub kind: InputKind,
    pub scripts: Scripts,
    pub behind: PhantomData<B>,
}

impl<B: Start> LineTaker for FileReader<B> {
    ghost use Rattle.heaprec_commands.specs.declared.reader.InputKind.TheVariants.{Script};
    ghost use Rattle.heaprec_commands.specs.FileLines.{file_report, with_lines};

    type Fault = RefusedLine;

    ghost report = { λ _. file_report B.kind B.job };

    ghost has_taken = { λ reader lines. reader.scripts ≡ with_lines B.kind B.job lines };

    ghost is_sound = { λ reader.
        (reader.kind ≡ B.kind) × (B.kind ≡ Script → 0 < length reader.scripts.scripts) };

    ghost measure = { λ _. 0 };

    fn line(&mut self, line: &[u8], _output: &mut Vec<u8>) -> Result<(), LineRefusal<RefusedLine>> {
        match take_line(self.kind, &mut self.scripts, line) {
            Ok(()) => Ok(()),
            Err(ScriptFault::NoMemory) => Err(LineRefusal::NoMemory),
            Err(fault) => Err(LineRefusal::Fault(RefusedLine { fault })),
        }
    }

    fn end(&self, _ended: bool) -> Result<(), RefusedLine> {
        Ok(())
    }

    #[inline(always)]
    fn front(&mut self, ready: &[u8], _output: &mut Vec<u8>) -> Option<usize> {
        match self.kind {
            InputKind::Modules => None,
            InputKind::Script => take_front(&mut self.scripts, ready),
        }
    }
}
