//! What a command makes of the profile of a Massif file, once all lines were read. Which lines such a file may have is no
//! part of it.
ghost use Rattle.std.specs.Prelude.{◌≡◌, IfErr, IfOk};
ghost use Rattle.command_frame.specs.Report.{Verdict, Writes};
ghost use Rattle.command_frame.specs.Taker.{Refuses};
ghost use Rattle.massif_file.specs.declared.profile.Profile.{Profile};
ghost use Rattle.massif_file.specs.IsWritable.{IsWritable};
ghost use Rattle.profile_reports.specs.MassifFileFault.{told};

use crate::massif_file_fault::MassifFileFault;
use command_frame::LineRefusal;
use massif_file::Profile;
use std::alloc::Global;

/// What makes the output of a profile.
pub trait MassifFileReport {
    /// What it makes of a profile.
    ghost verdict: { Self → Profile → Verdict };

    /// The whole output, or the fault of the profile, which is told at no line. `NoMemory` where memory is wanting.
    fn report(
        &self,
        alloc: Global,
        profile: &Profile,
    ) -> Result<Vec<u8>, LineRefusal<MassifFileFault>>
        requires { IsWritable profile.now }
        ensures output { IfOk result
            (λ output. verdict self.now profile.now ≡ Writes output.items) }
        ensures fault { IfErr result
            (λ refusal. Refuses told refusal (verdict self.now profile.now)) };
}
