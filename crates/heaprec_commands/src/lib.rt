//! The runs of `heaprec`: words and files in, a recording of scripts by threads or whether a trace is one, messages and a status
//! out. What the real files and outputs are is the business of the program.
//!
//! `heaprec_run` and `heaprec_main` carry the contract of the program, one record (`HeaprecRan`), which holds if the call
//! returns: it waits for a lock and for its threads. `heaprec_main` has the limits of the program and a gate that does
//! nothing, and tells where the words couldn't be had for want of memory.
//!
//! Behind them the words are asked for what they want (`record_asked`: a modules file or none, 1 to 64 scripts, and what is
//! done with them: they are recorded, with a summary or without, or a trace is checked). The files are read one after
//! another as a plan of `command_frame` (`files_plan`), behind which the task has a plan of its own (`task_plan`): a text of
//! the whole job, so that the faults don't depend on the text, which threads record; or the trace, line by line, as
//! `order_check` judges it (`check_report`).
//!
//! | File | Does |
//! |---|---|
//! | `inputs.rt`, `request.rt` | the words: which ones are taken, and what they ask for |
//! | `files.rt`, `one_file.rt` | the files that the words name, read one after another |
//! | `reader.rt`, `take_line.rt`, `ready_lines.rt` | one file, line by line, and many lines of a script at a time |
//! | `refusal.rt` | what a refused line is called |
//! | `record_text.rt` | the text of a recording by threads |
//! | `check_trace.rt`, `checked_trace.rt`, `check_refusal.rt` | the trace that is checked, line by line, and what it is called where it is none |
//! | `run_words.rt` | from the words and the files to what is to be delivered |
//! | `run.rt` | the run, and what is delivered |
//! | `texts.rt`, `open_gate.rt` | the texts of the program, and its gate |
#![tactic(auto)]

mod check_refusal;
mod check_trace;
mod checked_trace;
mod files;
mod inputs;
mod one_file;
mod open_gate;
mod reader;
mod ready_lines;
mod record_text;
mod refusal;
mod request;
mod run;
mod run_words;
mod take_line;
mod texts;

pub use run::{heaprec_main, heaprec_run};
