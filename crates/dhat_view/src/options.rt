//! What a view is asked for.
ghost use Rattle.std.specs.Prelude.{◌≤◌};

use dhat_json::FigureKey;

/// What a view shows of a profile. The range of its threshold is a fact of the type.
#[derive(Clone, Copy)]
pub struct ViewOptions {
    /// The figure of a point that is its cost.
    pub key: FigureKey,
    /// The least share of the sum that is shown by itself, in hundredths of a percent: at most 10,000.
    pub threshold: u64,
    /// The most frames below each other.
    pub depth: u32,
    pub ghost threshold_in_range: { threshold ≤ 10000 },
}
