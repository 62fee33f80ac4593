//! The tests, and what they share.

mod convert_tests;
mod dhat_tests;
mod failing_calls;
mod failure_tests;
mod flame_tests;
mod gen_tests;
mod interpret_tests;
mod massif_option_tests;
mod massif_tests;
mod message_tests;
mod page_tests;
mod print_tests;
mod refusal_tests;
mod summary_tests;
mod transcript;
mod view_tests;
