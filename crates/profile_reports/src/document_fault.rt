//! The faults of a DHAT profile as messages tell them, and their kinds. When each comes is decided where the profile is read,
//! shown and converted.
ghost use Rattle.std.specs.Prelude.{◌≡◌, ◌++◌, OnOk};
ghost use Rattle.profile_reports.specs.DocumentFault.{document_status, figures_text};

use command_frame::{Fault, FaultStatus};
use dhat_json::{DhatFault, FigureKey};
use dhat_view::ViewFault;
use hp_num::{NoMemory, put_bytes};

/// What is wrong with a DHAT profile.
#[derive(Clone, Copy)]
pub enum DocumentFault {
    /// The document says no profile.
    Document(DhatFault),
    /// The profile's points have no figures of this key.
    NoFigures(FigureKey),
    /// Figures of all points, or the time at the profile's end, are more than 2^62.
    TooLarge,
}

impl Fault for DocumentFault {
    ghost use Rattle.profile_reports.specs.DocumentFault.{told as told_of};

    ghost told = { told_of };

    fn put_text(&self, out: &mut Vec<u8>) -> Result<(), NoMemory> {
        match self {
            DocumentFault::Document(fault) => fault.put_message(out),
            DocumentFault::NoFigures(key) => put_no_figures(*key, out),
            DocumentFault::TooLarge => put_bytes(out, ViewFault::TooLarge.text().as_bytes()),
        }
    }

    fn status(&self) -> FaultStatus {
        match self {
            DocumentFault::Document(fault) => document_kind(*fault),
            DocumentFault::NoFigures(_) => FaultStatus::Malformed,
            DocumentFault::TooLarge => FaultStatus::PastLimit,
        }
    }
}

/// Appends that a profile has no figures of this key.
fn put_no_figures(key: FigureKey, out: &mut Vec<u8>) -> Result<(), NoMemory>
    ensures { OnOk result (out.new.items ≡ out.old.items ++ figures_text key) }
{
    put_bytes(out, b"no figures for ")?;
    put_bytes(out, key.key().name().as_bytes())
}

/// The kind of a document's fault. Want of memory is no fault of a document, and never told as one.
fn document_kind(fault: DhatFault) -> FaultStatus
    ensures { result ≡ document_status fault }
{
    match fault {
        DhatFault::TooMany => FaultStatus::PastLimit,
        DhatFault::NotJson
        | DhatFault::WrongFileVersion
        | DhatFault::MissingKey { .. }
        | DhatFault::WrongKind { .. }
        | DhatFault::FrameOutOfTable { .. }
        | DhatFault::NoMemory => FaultStatus::Malformed,
    }
}
