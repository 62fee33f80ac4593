//! The tests, and what they share.

mod forked;
mod trees;
