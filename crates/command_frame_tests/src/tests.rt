//! The tests, and what they share.

mod batch_tests;
mod cases;
mod paged_tests;
mod piece_tests;
mod runs;
mod text_tests;
