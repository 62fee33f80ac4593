//! The commands of `heapsuite`: words and files in, reports, messages and a status out. What the real files and outputs
//! are is the business of the program.
//!
//! What it promises is the contract of `heapsuite_run`, one record (`HasRun`), which speaks of what is done for the words
//! (`task_of`) and of the answer to them (`answer`): output, message and status are the defined ones unless a call failed or
//! memory was wanting, and what is left of that where one did. One field is of one command: `interpret` keeps the ledger.
//!
//! A command is one file of code and one module of definitions. The file says which words are taken, what they ask for (the
//! request) and how that is run, as an `impl` of `Command`; the module says the same as data (`CommandOf`), and which commands
//! write nothing while they read. All ten stand in two lists, `run_words` of `list.rt` and `commands` of `specs/Commands`; the names, the
//! usage text and what words come to are read of the latter. One generic call (`read`) reads the words of every command, and one (`run_read`) runs
//! it, and delivers the answer: `NotTaken` comes exactly where words aren't taken, unless memory is wanting, and no memory is
//! taken for no words or an unknown first one.
//!
//! Files are read by the crates below: what is made of one trace, and `gen`, which reads no file, are runs of `trace_reports`;
//! `dhat` and `massif`, which keep more while they read, are runs of `trace_profiles`; what commands over one Massif file or
//! one DHAT profile make of it is a report of `profile_reports`.
//!
//! The tests of the public calls are the crate `commands_tests`.
//!
//! | File | Does |
//! |---|---|
//! | `run.rt` | `heapsuite_run`, the public call |
//! | `list.rt` | the list of the commands, and the program's texts |
//! | `command.rt` | what a command is, and its run |
//! | `summary_command.rt`, `print_command.rt`, `flame_command.rt`, `interpret_command.rt` | these commands over a trace |
//! | `massif_command.rt`, `dhat_command.rt` | those that write a profile of a trace |
//! | `page_command.rt`, `view_command.rt`, `convert_command.rt` | `ms_print`, `dhat_view` and `convert` |
//! | `gen_command.rt` | `gen` |
//! | `number_words.rt`, `name_words.rt`, `key_words.rt` | values of options: numbers and percentages; names; keys of figures |
#![tactic(auto)]

mod command;
mod convert_command;
mod dhat_command;
mod flame_command;
mod gen_command;
mod interpret_command;
mod key_words;
mod list;
mod massif_command;
mod name_words;
mod number_words;
mod page_command;
mod print_command;
mod run;
mod summary_command;
mod view_command;

pub use list::heapsuite_texts;
pub use run::heapsuite_run;
