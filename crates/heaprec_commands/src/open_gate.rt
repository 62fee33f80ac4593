//! The gate of the program.

use recorder::Gate;

/// A gate that does nothing.
#[derive(Clone, Copy)]
pub struct OpenGate;

impl Gate for OpenGate {
    fn before(&self, _worker: u32, _hold: u64) {}
}
