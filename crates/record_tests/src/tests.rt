//! The tests, and what they share.

mod book_tests;
mod both_runs;
mod check_tests;
mod checked;
mod failing_calls;
mod failure_tests;
mod gates;
mod order_tests;
mod recorded_tests;
mod run_tests;
mod runs;
mod script_tests;
mod script_text;
mod thread_run_tests;
mod transcripts;
mod worker_tests;
