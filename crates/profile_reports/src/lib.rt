//! Commands that report on a profile: the lines of a Massif file, or the document of a DHAT profile, are read, and what is
//! written of them is here too; the words that ask for it are the business of the commands, and files and their order the frame's.
//!
//! What it promises:
//!
//! - `run_massif_file` and `run_dhat_file` come to the frame's `Runs` by `massif_file_plan` and `dhat_file_plan`, for any report:
//!   the taker of a Massif file's lines and the reading of a document are proved once for all commands over one. A report
//!   (`MassifFileReport`, `DhatFileReport`) gives the output of a profile, or a fault of the whole file, which is told at no
//!   line.
//! - `PageReport` and `ViewReport` are the page of a Massif file and the view of a DHAT profile.
//! - `run_conversion` reads the file, by lines or whole, and gives what its `Conversion` makes of it (`conversion_plan`).
//! - `MassifFileFault` and `DocumentFault`: what is told of a fault of either kind of file, with the text that its own type
//!   has for it.
//!
//! The tests are those of the commands, in the crate `commands_tests`.
//!
//! | File | Does |
//! |---|---|
//! | `massif_file_report.rt`, `massif_file_taker.rt` | what is made of a Massif file; its taker and its run |
//! | `dhat_file.rt` | what is made of a DHAT profile; its document and its run |
//! | `page_report.rt`, `page_size.rt` | the page of a Massif file; how a page is made |
//! | `view_report.rt` | the view of a DHAT profile |
//! | `conversion.rt`, `convert_reports.rt`, `conversion_run.rt` | which conversions there are; what they make of profiles; their run |
//! | `massif_file_fault.rt`, `document_fault.rt` | faults of Massif files and of DHAT documents, as told |
#![tactic(auto)]

mod conversion;
mod conversion_run;
mod convert_reports;
mod dhat_file;
mod document_fault;
mod massif_file_fault;
mod massif_file_report;
mod massif_file_taker;
mod page_report;
mod page_size;
mod view_report;

pub use conversion::Conversion;
pub use conversion_run::run_conversion;
pub use dhat_file::{DhatFileReport, run_dhat_file};
pub use document_fault::DocumentFault;
pub use massif_file_fault::MassifFileFault;
pub use massif_file_report::MassifFileReport;
pub use massif_file_taker::run_massif_file;
pub use page_report::PageReport;
pub use page_size::PageSize;
pub use view_report::ViewReport;
