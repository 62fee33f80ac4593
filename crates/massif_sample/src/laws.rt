//! Laws for the crates above: of what a sampler stands for, whose tables grow while it is kept, and of the sizes that it counts.
ghost use Rattle.std.specs.Prelude.{◌≤◌, ℕ};
ghost use Rattle.ht_trace.specs.Continues.{Continues};
ghost use Rattle.ht_trace.specs.TableState.{TableState};
ghost use Rattle.massif_sample.specs.Gross.{rounded_up};
ghost use Rattle.massif_sample.specs.LeastMultiple.{IsLeastMultiple};
ghost use Rattle.massif_sample.specs.SamplerCalls.{StandsBeside};

/// A sampler stands for the same events when its tables have grown: what is ignored, the figures and the trees are all of
/// stacks that were there before. It does nothing.
pub fn sampling_goes_on()
    ensures { (before after : TableState) → Continues before after → StandsBeside before after }
{}

/// A size rounded up is the least multiple of the alignment that is no less than it. It does nothing.
pub fn rounded_sizes()
    ensures { (alignment size : ℕ) → 1 ≤ alignment
        → IsLeastMultiple alignment size (rounded_up alignment size) }
{}
