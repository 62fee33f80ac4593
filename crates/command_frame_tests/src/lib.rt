//! Tests of the public calls of `command_frame`, in a crate of their own: a crate that has tests is proved twice.
#![tactic(auto)]

mod countdown;
mod document;
mod echo;
mod refusing;
mod signs;
#[cfg(test)]
mod tests;
