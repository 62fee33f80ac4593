//! Tests of the public calls of `commands`, over whole runs. They stand in a crate of their own, so that the commands are
//! proved once.
#![tactic(auto)]

#[cfg(test)]
mod tests;
