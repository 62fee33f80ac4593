//! What the costs of a tree are measured by.
ghost use Rattle.std.specs.Prelude.{◌≡◌};
ghost use Rattle.cost_tree.specs.CostLines.{is_small};

/// The whole that costs are shares of, and the least share that has a line of its own.
#[derive(Clone, Copy)]
pub struct Scale {
    /// The whole, in the unit of the costs.
    pub total: u64,
    /// The least share, in hundredths of a percent; with 0, each cost has a line of its own.
    pub threshold: u64,
}

impl Scale {
    /// Whether a cost is too small for a line of its own.
    pub fn is_small(self, cost: u64) -> bool
        ensures { result ≡ is_small self cost }
    {
        10_000 * u128::from(cost) < u128::from(self.threshold) * u128::from(self.total)
    }
}
