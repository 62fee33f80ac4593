//! A DHAT profile for every command over one: how its document is read, and its run. What each of them makes of the profile
//! is the part of its report.
ghost use Rattle.std.specs.Prelude.{◌≡◌, ◌^◌, ◌<◌, [], ◌∷◌, IfErr, IfOk};
ghost use Rattle.command_frame.specs.Report.{Verdict, Writes};
ghost use Rattle.command_frame.specs.RunsTo.{RunsTo, Taken, shown};
ghost use Rattle.command_frame.specs.Taker.{Refuses};
ghost use Rattle.dhat_json.specs.declared.profile.Dhat.{Dhat};
ghost use Rattle.dhat_json.specs.IsSound.{IsSound};
ghost use Rattle.profile_reports.specs.DhatFileReport.{dhat_file_plan, dhat_file_verdict, document_refusal};
ghost use Rattle.profile_reports.specs.DocumentFault.{told};

use crate::document_fault::DocumentFault;
use command_frame::{DocumentReport, Halt, LineRefusal, RunContext, run_document};
use dhat_json::{Dhat, DhatFault, read_profile};
use hp_outside::{Bytes, Store};
use std::alloc::Global;

/// What makes the output of a DHAT profile.
pub trait DhatFileReport {
    /// What it makes of a profile.
    ghost verdict: { Self → Dhat → Verdict };

    /// The whole output, or the fault of the profile, which may be let go before the output is made. `NoMemory` where memory is
    /// wanting.
    fn report(&self, alloc: Global, dhat: Dhat) -> Result<Vec<u8>, LineRefusal<DocumentFault>>
        requires { IsSound dhat }
        ensures output { IfOk result (λ output. verdict self.now dhat ≡ Writes output.items) }
        ensures fault { IfErr result
            (λ refusal. Refuses told refusal (verdict self.now dhat)) };
}

/// The document of a profile, and what makes the output of it.
#[derive(Drop)]
struct DhatFile<R> {
    report: R,
}

impl<R: DhatFileReport> DocumentReport for DhatFile<R> {
    type Fault = DocumentFault;

    ghost verdict = { λ file. dhat_file_verdict (R.verdict file.report) };

    fn report(&self, alloc: Global, bytes: Bytes) -> Result<Vec<u8>, LineRefusal<DocumentFault>> {
        let read = read_profile(alloc, bytes.bytes());
        drop(bytes);
        match read {
            Ok(dhat) => self.report.report(alloc, dhat),
            Err(fault) => Err(document_refusal(fault)),
        }
    }
}

/// Reads the named DHAT profile, and gives what its report makes of it.
pub fn run_dhat_file<R: DhatFileReport + Drop, S: Store>(
    context: &RunContext,
    name: &str,
    report: R,
    store: &mut S,
) -> Result<Vec<u8>, Halt>
    requires { S.opens store.old < 2 ^ 63 }
    ensures { (out : Taken)
        → RunsTo context.now (name.now ∷ []) (dhat_file_plan name.now (R.verdict report))
        (shown S.Store store.old) (shown S.Store store.new) out out result }
{
    let file = DhatFile { report };
    run_document(context, name, &file, store)
}

fn document_refusal(fault: DhatFault) -> LineRefusal<DocumentFault>
    ensures { result ≡ document_refusal fault }
{
    match fault {
        DhatFault::NoMemory => LineRefusal::NoMemory,
        DhatFault::NotJson
        | DhatFault::WrongFileVersion
        | DhatFault::MissingKey { .. }
        | DhatFault::WrongKind { .. }
        | DhatFault::FrameOutOfTable { .. }
        | DhatFault::TooMany => LineRefusal::Fault(DocumentFault::Document(fault)),
    }
}
