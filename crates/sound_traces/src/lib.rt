//! That no generated trace has a fault.
//!
//! The law `generated_traces`: of the lines that `trace_gen` defines none has a fault after those before it, neither in
//! the tables nor in the figures of the event that it brings, nor has their end (`HasNoFault`). It holds for every
//! seed, 1 to 4,000 stacks and at most 10,000,000 events. The command `gen` reads such lines, and has no answer for a
//! fault of theirs.
#![tactic(auto)]

ghost use Rattle.std.specs.Prelude.{◌≤◌, []};
ghost use Rattle.trace_gen.specs.GeneratedTrace.{generated_lines};
ghost use Rattle.trace_gen.specs.Sizes.{Sizes};
ghost use Rattle.sound_traces.specs.NoFault.{HasNoFault};

use hp_num::{decimal_texts, hexadecimal_texts};

/// No generated trace has a fault, neither in a line nor at its end. It does nothing: a caller that reads one calls it for its
/// clause.
pub fn generated_traces()
    ensures no_fault { (sizes : Sizes) → 1 ≤ sizes.stacks → sizes.stacks ≤ 4000
        → sizes.events ≤ 10000000 → HasNoFault [] (generated_lines sizes) }
{
    decimal_texts();
    hexadecimal_texts();
}
