//! The frame of a program that reads files in order and writes to two outputs: what every command does with its files.
//! It reads them in order, writes while it reads, and delivers the rest. What the lines mean is the business of the
//! commands.
//!
//! A command is a `Plan`: its files in order, each read by lines (`Lines`) or whole (`Document`), and what is made of
//! them (`Ends`), or a text that is written while it is made (`Pieces`). `plan_answer` is the answer to a plan over a
//! folder of files. Whatever the store and the outputs do, a run is one that the plan allows. What it promises:
//!
//! - `run_one_file` and `run_pair` come to `Readies`, `run_document` and `run_text` to `Runs` (`specs/RunsTo`), one record: the
//!   answer that is yet to be delivered, what the store's calls were, what was written early, and that a write failed
//!   exactly at status 4. `Runs` is `Readies` of a text that is held. `read_named_file` and `read_document`, of which they are made, come to `Reads` and `ReadsWhole`.
//! - `LineTaker`: what takes the lines of a file. Its ghost `report` says what the lines mean: their faults, and what
//!   each gives to standard output. `line` takes one line, `end` judges the end of the file, and `front` takes a whole
//!   short line at the front of bytes, which has no fault, and gives what it gives; a taker that takes none there leaves
//!   `front` out. The loop over such lines stands in `front.rt`. `LineReport` makes the rest of the output of all lines.
//! - `FilePair`: two files by lines, where the taker of the second is made of that of the first, and what the second
//!   means depends on the lines of the first.
//! - `DocumentReport`: what makes the output of a file's bytes, or finds their first fault, which the message tells at
//!   the file and at no line. A document of too many bytes is refused before any other fault of it, exactly where no read
//!   failed; every other fault comes only once the end was read.
//! - `ReadyText`: the rest of an output, for which no more memory is needed: a text that is held, or one that is made piece by
//!   piece (`Paged`) while it is written, in room that was taken before (`PieceMaker`).
//! - `TextMaker`: what makes a text piece by piece. `run_text` writes it while it is made (`Pieces`), in the memory of
//!   one piece and of what is written at once.
//! - `Halt`: why a run ends early, with its message and its status. `deliver`: both outputs, written and flushed, whole at every status but 4, which comes only where an output failed (`specs/Delivery`).
//! - What follows for the program (`specs/RunFacts`) is the law `run_facts`.
//!
//! `proofs/Laws` has all that callers may cite. The tests of these calls, with a taker that writes while it reads, are the
//! crate `command_frame_tests`.
//!
//! | File | Does |
//! |---|---|
//! | `taker.rt`, `report.rt`, `fault.rt` | what takes lines; what makes the rest of the output; faults as told |
//! | `lines.rt`, `front.rt` | the lines of the current file; those at the front of bytes |
//! | `files.rt`, `run.rt` | the lines of a named file; a run over one file |
//! | `pair.rt` | a run over two files |
//! | `document.rt` | a file that is read whole, and a run over one |
//! | `text.rt`, `ready_text.rt` | a text that is written while it is made; one that is ready to be written |
//! | `halt.rt`, `texts.rt`, `context.rt` | why a run ends early; a program's texts; what a command has at hand |
//! | `delivery.rt` | both outputs, and the status |
#![tactic(auto)]

mod context;
mod delivery;
mod document;
mod fault;
mod files;
mod front;
mod halt;
mod lines;
mod pair;
mod ready_text;
mod report;
mod run;
mod taker;
mod text;
mod texts;

pub use context::RunContext;
pub use delivery::deliver;
pub use document::{DocumentReport, read_document, run_document};
pub use fault::{Fault, FaultStatus};
pub use files::read_named_file;
pub use halt::{Halt, Message, Status};
pub use lines::FileFault;
pub use pair::{FilePair, PairNames, run_pair};
pub use ready_text::{Paged, PieceMaker, ReadyText};
pub use report::LineReport;
pub use run::run_one_file;
pub use taker::{LineRefusal, LineTaker};
pub use text::{TextMaker, run_text};
pub use texts::ProgramTexts;
