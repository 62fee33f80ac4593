//! The faults of a Massif file as messages tell them, and their kinds. When each comes is decided where the file is read.
ghost use Rattle.std.specs.Prelude.{◌≡◌};

use command_frame::{Fault, FaultStatus};
use convert::ConvertFault;
use hp_num::{NoMemory, put_bytes};
use massif_file::ProfileFault;

/// What is wrong with a Massif file.
#[derive(Clone, Copy)]
pub enum MassifFileFault {
    /// A line can't follow the lines before it, or the file can't end there.
    File(ProfileFault),
    /// No snapshot with a tree is there to be converted, or not the one that is asked for.
    NoTree,
    /// The bytes that are to be converted sum to more than 2^62.
    TooLarge,
}

impl Fault for MassifFileFault {
    ghost use Rattle.profile_reports.specs.MassifFileFault.{told as told_of};

    ghost told = { told_of };

    fn put_text(&self, out: &mut Vec<u8>) -> Result<(), NoMemory> {
        match self {
            MassifFileFault::File(fault) => put_bytes(out, fault.text().as_bytes()),
            MassifFileFault::NoTree => put_bytes(out, ConvertFault::NoTree.text().as_bytes()),
            MassifFileFault::TooLarge => {
                put_bytes(out, ConvertFault::TooLarge.text().as_bytes())
            }
        }
    }

    fn status(&self) -> FaultStatus {
        match self {
            MassifFileFault::File(_) | MassifFileFault::NoTree => FaultStatus::Malformed,
            MassifFileFault::TooLarge => FaultStatus::PastLimit,
        }
    }
}
