//! What a trace is generated from.
ghost use Rattle.std.specs.Prelude.{◌≤◌};

/// The seed of the draws, and how many stacks and events a trace has. Their ranges are facts of the type.
#[derive(Clone, Copy)]
pub struct GeneratorOptions {
    /// At most 2,147,483,647.
    pub seed: u64,
    /// From 1 to 4,000.
    pub stacks: u64,
    /// At most 10,000,000.
    pub events: u64,
    pub ghost seed_in_range: { seed ≤ 2147483647 },
    pub ghost stacks_above_zero: { 1 ≤ stacks },
    pub ghost stacks_in_range: { stacks ≤ 4000 },
    pub ghost events_in_range: { events ≤ 10000000 },
}
