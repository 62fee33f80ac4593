//! The tests, and what they share.

mod failing;
mod files;
mod lines;
mod numbers;
mod sinks;
mod stores;
