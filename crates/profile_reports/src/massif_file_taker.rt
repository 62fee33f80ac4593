//! The taker of a Massif file for every command over one. What each of them makes of the profile is the part of its report.
ghost use Rattle.std.specs.Prelude.{◌≡◌, ◌^◌, ◌<◌, ℕ, List, [], ◌∷◌, All};
ghost use Rattle.command_frame.specs.RunsTo.{Runs};
ghost use Rattle.massif_file.specs.IsWritable.{IsLine};
ghost use Rattle.massif_file.specs.StandsFor.{StandsFor};
ghost use Rattle.profile_reports.specs.MassifFileReport.{massif_file_plan, massif_file_report};

use crate::massif_file_fault::MassifFileFault;
use crate::massif_file_report::MassifFileReport;
use command_frame::{Halt, LineRefusal, LineReport, LineTaker, RunContext, run_one_file};
use hp_outside::{Sink, Store};
use massif_file::{ProfileFault, ProfileReader, massif_profiles};
use std::alloc::Global;

/// What was read of a Massif file, and what makes the output of its profile.
#[derive(Drop)]
pub struct MassifFileTaker<R> {
    reader: ProfileReader,
    report: R,
}

impl<R: MassifFileReport> LineTaker for MassifFileTaker<R> {
    type Fault = MassifFileFault;

    ghost report = { λ taker. massif_file_report (R.verdict taker.report) };

    ghost has_taken = { λ taker lines. StandsFor taker.reader lines × All IsLine lines };

    ghost is_sound = { λ taker.
        (lines : List (List ℕ)) × StandsFor taker.reader lines × All IsLine lines };

    ghost measure = { λ _. 0 };

    fn line(
        &mut self,
        line: &[u8],
        _output: &mut Vec<u8>,
    ) -> Result<(), LineRefusal<MassifFileFault>> {
        massif_profiles();
        match self.reader.line(line) {
            Ok(()) => Ok(()),
            Err(ProfileFault::NoMemory) => Err(LineRefusal::NoMemory),
            Err(fault) => Err(LineRefusal::Fault(MassifFileFault::File(fault))),
        }
    }

    fn end(&self, _ended: bool) -> Result<(), MassifFileFault> {
        match self.reader.profile() {
            Ok(_) => Ok(()),
            Err(fault) => Err(MassifFileFault::File(fault)),
        }
    }
}

impl<R: MassifFileReport + Drop> LineReport for MassifFileTaker<R> {
    type Rest = Vec<u8>;

    fn finish(self, alloc: Global) -> Result<Vec<u8>, LineRefusal<MassifFileFault>> {
        match self.reader.profile() {
            Ok(profile) => self.report.report(alloc, profile),
            Err(fault) => Err(LineRefusal::Fault(MassifFileFault::File(fault))),
        }
    }

    fn close(self) {}
}

/// Reads the named Massif file, and gives what its report makes of it.
pub fn run_massif_file<R: MassifFileReport + Drop, S: Store, O: Sink>(
    context: &RunContext,
    name: &str,
    report: R,
    store: &mut S,
    out: &mut O,
) -> Result<Vec<u8>, Halt>
    requires { S.opens store.old < 2 ^ 63 }
    ensures { Runs S.Store O.Sink context.now (name.now ∷ [])
        (massif_file_plan name.now (R.verdict report))
        store.old store.new out.old out.new result }
{
    let taker = MassifFileTaker {
        reader: ProfileReader::new(context.alloc),
        report,
    };
    run_one_file(context, name, taker, store, out)
}
