//! What `convert` makes of a profile that was read: the calls of the crate `convert`, and their faults as refusals of the
//! file.
ghost use Rattle.std.specs.Prelude.{◌≡◌};
ghost use Rattle.profile_reports.specs.ConvertReport.{converted_verdict, dhat_refusal, folded_massif_verdict, folded_verdict, massif_refusal};

use crate::dhat_file::DhatFileReport;
use crate::document_fault::DocumentFault;
use crate::massif_file_fault::MassifFileFault;
use crate::massif_file_report::MassifFileReport;
use command_frame::LineRefusal;
use convert::{ConvertFault, PointSums, massif_of_dhat, put_folded_massif};
use dhat_json::{Dhat, FigureKey};
use massif_file::{Profile, put_profile};
use std::alloc::Global;

/// The folded lines of a DHAT profile, by a figure of its points.
#[derive(Clone, Copy)]
pub struct FoldedPoints {
    pub key: FigureKey,
}

impl DhatFileReport for FoldedPoints {
    ghost verdict = { λ points. folded_verdict points.key };

    fn report(&self, alloc: Global, dhat: Dhat) -> Result<Vec<u8>, LineRefusal<DocumentFault>> {
        let read = PointSums::of(alloc, self.key, &dhat);
        drop(dhat);
        let sums = match read {
            Ok(sums) => sums,
            Err(fault) => return Err(dhat_refusal(fault, self.key)),
        };
        let mut folded = Vec::new(alloc);
        sums.put(&mut folded)?;
        Ok(folded)
    }
}

/// A DHAT profile as a Massif file.
#[derive(Clone, Copy)]
pub struct PointsOverTime;

impl DhatFileReport for PointsOverTime {
    ghost verdict = { λ _. converted_verdict };

    fn report(&self, alloc: Global, dhat: Dhat) -> Result<Vec<u8>, LineRefusal<DocumentFault>> {
        let converted = massif_of_dhat(alloc, &dhat);
        drop(dhat);
        let profile = match converted {
            Ok(profile) => profile,
            Err(fault) => return Err(dhat_refusal(fault, FigureKey::Gb)),
        };
        let mut file = Vec::new(alloc);
        put_profile(&profile, &mut file)?;
        Ok(file)
    }
}

/// The folded lines of a snapshot of a Massif file: of the one with a number, or of the last peak or detailed one.
#[derive(Clone, Copy)]
pub struct FoldedSnapshot {
    pub snapshot: Option<u32>,
}

impl MassifFileReport for FoldedSnapshot {
    ghost verdict = { λ folded. folded_massif_verdict folded.snapshot };

    fn report(
        &self,
        alloc: Global,
        profile: &Profile,
    ) -> Result<Vec<u8>, LineRefusal<MassifFileFault>> {
        let mut folded = Vec::new(alloc);
        match put_folded_massif(alloc, self.snapshot, profile, &mut folded) {
            Ok(()) => Ok(folded),
            Err(fault) => Err(massif_refusal(fault)),
        }
    }
}

/// Why a DHAT profile can't be converted by the figures of a key, as the refusal of it. It never lacks a tree.
fn dhat_refusal(fault: ConvertFault, key: FigureKey) -> LineRefusal<DocumentFault>
    ensures { result ≡ dhat_refusal key fault }
{
    match fault {
        ConvertFault::NoMemory => LineRefusal::NoMemory,
        ConvertFault::TooLarge => LineRefusal::Fault(DocumentFault::TooLarge),
        ConvertFault::NoFigures | ConvertFault::NoTree => {
            LineRefusal::Fault(DocumentFault::NoFigures(key))
        }
    }
}

/// Why a Massif file can't be converted, as the refusal of it. It never lacks figures.
fn massif_refusal(fault: ConvertFault) -> LineRefusal<MassifFileFault>
    ensures { result ≡ massif_refusal fault }
{
    match fault {
        ConvertFault::NoMemory => LineRefusal::NoMemory,
        ConvertFault::TooLarge => LineRefusal::Fault(MassifFileFault::TooLarge),
        ConvertFault::NoTree | ConvertFault::NoFigures => {
            LineRefusal::Fault(MassifFileFault::NoTree)
        }
    }
}
