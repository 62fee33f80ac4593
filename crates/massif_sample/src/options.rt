//! What is asked of the snapshots of a trace.
ghost use Rattle.std.specs.Prelude.{◌≡◌, ◌+◌, ◌^◌, ◌≤◌};
ghost use Rattle.massif_sample.specs.Gross.{gross};
ghost use Rattle.massif_sample.specs.Options.{AreInRange};

use massif_file::TimeUnit;

/// How snapshots are taken, and what they show.
#[derive(Clone, Copy)]
pub struct MassifOptions {
    /// The least share of a snapshot's total that a place of its tree has a line for, in hundredths of a percent.
    pub threshold: u64,
    /// By how many hundredths of a percent a peak's total must pass that of the last one.
    pub inaccuracy: u64,
    /// Every how many normal snapshots taken one is detailed.
    pub detailed_freq: u64,
    /// The number of snapshots at which half of them are removed.
    pub max_snapshots: u32,
    /// The most frames that stand below one another in a tree.
    pub depth: u32,
    /// The bytes that the heap adds to each block.
    pub admin: u64,
    /// What the heap rounds the size of each block up to a multiple of, in bytes.
    pub alignment: u64,
    /// What times count.
    pub unit: TimeUnit,
}

impl MassifOptions {
    /// What a block of this size takes of the heap: the size rounded up to a multiple of the alignment, and the bytes of
    /// administration.
    #[inline(always)]
    pub(crate) fn gross(&self, size: u64) -> u64
        requires options { AreInRange self.now }
        requires size { size ≤ 2 ^ 62 }
        ensures exact { result ≡ gross self.now size }
        ensures least { size ≤ result }
        ensures most { result ≤ size + 5120 }
    {
        // The alignment is a power of two, so that what the end is over a multiple of it is in its lower bits.
        let over = self.alignment - 1;
        let end = size + over;
        end - (end & over) + self.admin
    }
}
