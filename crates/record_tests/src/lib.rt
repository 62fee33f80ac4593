//! Tests of the public calls of `record_scripts`, `record_book`, `recorder`, `order_check` and `heaprec_commands`, and of both programs
//! together, in a crate of their own: a crate that has tests is proved twice.
//!
//! | File | What it has |
//! |---|---|
//! | `script_tests`, `book_tests` | scripts that say the same, and the traces and summaries of small scripts |
//! | `worker_tests` | that there is a worker for each script, and that they take all turns |
//! | `run_tests` | runs whose text is the same whatever the threads do, and lines of scripts |
//! | `order_tests`, `check_tests` | checks of traces of small scripts, and runs that check a trace, without a worker |
//! | `thread_run_tests` | runs of two to eight scripts by threads: that these go on beside each other, in numbered holds |
//! | `failure_tests`, `failing_calls` | each call of a run that can fail, failed once |
//! | `recorded_tests`, `both_runs` | what one program records, the other reads |
//! | `checked` | the traces that both kinds of checks read |
//! | `gates`, `runs`, `script_text`, `transcripts` | what the others share |
#![tactic(auto)]

#[cfg(test)]
mod tests;
