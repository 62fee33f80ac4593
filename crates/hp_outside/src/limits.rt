//! The numbers that bound an input. That no larger ones exist is a fact of the type.
ghost use Rattle.std.specs.Prelude.{◌≡◌, ◌-◌, ◌^◌, ◌≤◌};

/// The limits of one run.
#[derive(Clone, Copy)]
pub struct Limits {
    /// Bytes of one file, at most 2^34.
    pub input: u64,
    /// Bytes of one line, from 1 to 1,048,576.
    pub line: u32,
    /// Events of all scripts, at most 2^24 - 1.
    pub order: u64,
    pub ghost input_in_range: { input ≤ 2 ^ 34 },
    pub ghost line_above_zero: { 1 ≤ line },
    pub ghost line_in_range: { line ≤ 1048576 },
    pub ghost order_in_range: { order ≤ 2 ^ 24 - 1 },
}

impl Limits {
    /// The limits of the programs: 2^34 bytes a file, 1,048,576 bytes a line, 10,000,000 events.
    pub fn standard() -> Limits
        ensures input { result.input ≡ 2 ^ 34 }
        ensures line { result.line ≡ 1048576 }
        ensures order { result.order ≡ 10000000 }
    {
        Limits {
            input: 1 << 34,
            line: 1_048_576,
            order: 10_000_000,
        }
    }
}
