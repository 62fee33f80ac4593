//! The words of a command: a table of options, flags and files (`WordTable`), and what words give by it. Which words a
//! table takes is `clap`'s own rule; which values are in range is the business of the programs.
//!
//! What it promises: `take_words` answers the rows that the words give by the table exactly where they are taken
//! (`words_taken`), and `value`, `has`, `files` and `only_file` read those rows.
//!
//! Words are tried by runs of the commands that take them, in the crates `commands_tests` and `record_tests`.
#![tactic(auto)]

mod command;
mod table;
mod taken;

pub use table::WordTable;
pub use taken::{TakenWords, WordsFault, take_words};
