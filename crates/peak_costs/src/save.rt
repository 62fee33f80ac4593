//! Saving what a stack has live, before it changes and at most once for each peak.
ghost use Rattle.std.specs.Prelude.{◌≡◌, ◌==◌, ◌+◌, ◌<◌, ◌≤◌, length, slice_index, slice_set};

use live_ledger::{Cells, Figures, Steps};
use std::sync::ledger::Ledger;

/// Whether the stack's figures are saved for the peak with this number.
pub fn has(stamps: &Cells, counter: u64, stack: u32) -> bool
    requires { stack < length stamps.now }
    ensures { result ≡ (slice_index stamps.now stack == counter) }
{
    stamps.at(stack) == counter
}

/// Saves the stack's figures and stamps them with the counter.
pub fn save<L: Ledger>(
    saved: &mut Cells,
    blocks: &mut Cells,
    stamps: &mut Cells,
    counter: u64,
    stack: u32,
    figures: Figures,
    steps: &mut Steps<L>,
)
    requires held { (stack < length saved.old) × (stack < length blocks.old)
        × (stack < length stamps.old) }
    ensures saved { saved.new ≡ slice_set saved.old stack figures.live }
    ensures blocks { blocks.new ≡ slice_set blocks.old stack figures.blocks }
    ensures stamps { stamps.new ≡ slice_set stamps.old stack counter }
    ensures steps { steps.new ≤ steps.old + 3 }
{
    saved.set(stack, figures.live, steps);
    blocks.set(stack, figures.blocks, steps);
    stamps.set(stack, counter, steps);
}
