//! What is settled of the snapshots of a trace before it is read. Which words settle it is no part of it.
ghost use Rattle.std.proofs.Props.{props};
ghost use Rattle.massif_sample.specs.AreWithin.{AreWithin};

use crate::options::MassifOptions;

/// How snapshots are taken, and which functions are named. That the numbers are within the ranges of their options is a fact
/// of the type.
#[derive(Clone, Copy)]
pub struct SampleSettings<'a> {
    /// How snapshots are taken.
    pub options: MassifOptions,
    /// The functions that stacks are shown without, with semicolons between them.
    pub alloc_fns: &'a str,
    /// The functions whose stacks are ignored, likewise.
    pub ignore_fns: &'a str,
    pub ghost within: { AreWithin options } by { Prim.hlevel props },
}
