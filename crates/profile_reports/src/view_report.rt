//! The view of a DHAT profile. How its document is read is no part of it.
ghost use Rattle.std.specs.Prelude.{◌≡◌};
ghost use Rattle.profile_reports.specs.ViewReport.{view_refusal, view_verdict};

use crate::dhat_file::DhatFileReport;
use crate::document_fault::DocumentFault;
use command_frame::LineRefusal;
use dhat_json::{Dhat, FigureKey};
use dhat_view::{ViewFault, ViewOptions, ViewParts};
use std::alloc::Global;

/// Makes the view of a profile.
#[derive(Clone, Copy)]
pub struct ViewReport {
    pub options: ViewOptions,
}

impl DhatFileReport for ViewReport {
    ghost verdict = { λ report.
        view_verdict report.options.key report.options.threshold report.options.depth };

    fn report(&self, alloc: Global, dhat: Dhat) -> Result<Vec<u8>, LineRefusal<DocumentFault>> {
        let read = ViewParts::of(alloc, &self.options, &dhat);
        drop(dhat);
        let parts = match read {
            Ok(parts) => parts,
            Err(fault) => return Err(view_refusal(fault, self.options.key)),
        };
        let mut view = Vec::new(alloc);
        parts.put(alloc, &mut view)?;
        Ok(view)
    }
}

/// Why a profile has no view, as the refusal of its document.
fn view_refusal(fault: ViewFault, key: FigureKey) -> LineRefusal<DocumentFault>
    ensures { result ≡ view_refusal key fault }
{
    match fault {
        ViewFault::NoMemory => LineRefusal::NoMemory,
        ViewFault::NoFigures => LineRefusal::Fault(DocumentFault::NoFigures(key)),
        ViewFault::TooLarge => LineRefusal::Fault(DocumentFault::TooLarge),
    }
}
