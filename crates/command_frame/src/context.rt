//! What every command of a program has at hand.

use crate::texts::ProgramTexts;
use hp_outside::Limits;
use std::alloc::Global;

/// The allocator, the limits of the run and the texts of the program.
#[derive(Clone, Copy)]
pub struct RunContext {
    pub alloc: Global,
    pub limits: Limits,
    pub texts: ProgramTexts,
}
