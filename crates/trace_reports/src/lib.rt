//! Commands that report on a trace: what `summary`, `print`, `flame` and `interpret` make of a trace that is read, and `gen` of the numbers that
//! a trace is generated from. The words that ask for a report are the business of the words' crate; how a trace is read is
//! that of `trace_reading`, and files and their order are the frame's.
//!
//! What it promises: `run_summary`, `run_print`, `run_flame` and `run_interpret` come to the frame's `Runs`, by a plan that says the
//! whole text by the lines of the files, and the first fault of each. The first three are writers of a trace (`TraceWriter`),
//! `summary` of one whose totals alone are kept; `interpret` has takers of its own, which write each line's interpretation while
//! they read. `run_gen` writes a generated trace while it is made, and `run_gen_summary` gives the summary of one, whose lines are
//! read as they are made, and those of events by what they say.
//!
//! `proofs/Laws` has what callers may cite. The tests are runs of the commands, in the crate `commands_tests`.
//!
//! | File | Does |
//! |---|---|
//! | `summary_run.rt`, `print_run.rt`, `flame_run.rt` | these commands: the writer, and a run over one trace |
//! | `interpret_run.rt`, `interpret_reader.rt` | a run of `interpret`; its two takers |
//! | `gen_run.rt`, `gen_summary.rt` | a generated trace; the summary of one while it is made |
//! | `symbol_file_fault.rt` | faults of tables of symbols, as told |
#![tactic(auto)]

mod flame_run;
mod gen_run;
mod gen_summary;
mod interpret_reader;
mod interpret_run;
mod print_run;
mod summary_run;
mod symbol_file_fault;

pub use flame_run::{FlameText, run_flame};
pub use gen_run::{run_gen, run_gen_summary};
pub use interpret_run::run_interpret;
pub use print_run::run_print;
pub use summary_run::run_summary;
