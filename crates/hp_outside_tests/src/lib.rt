//! Tests of the public calls of `hp_num` and `hp_outside`, in a crate of their own: a crate that has tests is proved twice.
//!
//! Each call once at a type of its own, and what no clause says: that memory is enough, and that the system's files and
//! writers pass on what they are given.
#![tactic(auto)]

#[cfg(test)]
mod tests;
