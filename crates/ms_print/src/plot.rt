//! Where snapshots stand in a graph, and how high.
ghost use Rattle.std.specs.Prelude.{◌≡◌, ◌<◌, ◌≤◌, ◌^◌, All, length};
ghost use Rattle.massif_file.specs.LastTime.{last_time};
ghost use Rattle.massif_file.specs.IsWritable.{IsWritableSnap};
ghost use Rattle.ms_print.specs.Plots.{column_at, height_at, plot_of};
ghost use Rattle.ms_print.specs.Sums.{greatest_sum, sum_of};

use massif_file::{Snap, Snaps};

/// What all columns of a graph have in common.
#[derive(Clone, Copy)]
pub(crate) struct Plot {
    /// How many columns there are.
    pub(crate) width: u32,
    /// How many rows there are.
    pub(crate) height: u32,
    /// The time of the last column.
    pub(crate) last: u64,
    /// The sum of the top row.
    pub(crate) peak: u64,
}

impl Plot {
    /// The column of a time, from 1.
    #[tactic(auto, unfolding(crate::specs::Plots::column_at))]
    pub(crate) fn column(self, time: u64) -> usize
        requires within { time ≤ self.last }
        requires wide { 0 < self.width }
        ensures column { result ≡ column_at self time }
        ensures first { 0 < result }
        ensures last { result ≤ self.width }
    {
        if self.last == 0 {
            return 1;
        }
        let before = u128::from(time) * u128::from(self.width - 1) / u128::from(self.last);
        1 + before as usize
    }

    /// How many rows a sum fills.
    #[tactic(auto, unfolding(crate::specs::Plots::height_at))]
    pub(crate) fn rows(self, sum: u64) -> u32
        requires within { sum ≤ self.peak }
        ensures { result ≡ height_at self sum }
    {
        if self.peak == 0 {
            return 0;
        }
        let rows = u128::from(sum) * u128::from(self.height) / u128::from(self.peak);
        rows as u32
    }
}

/// The graph of snapshots with so many columns and rows. There must be a snapshot.
pub(crate) fn plot_of(width: u32, height: u32, snaps: &Snaps) -> Plot
    requires some { 0 < length snaps.now }
    requires numbers { All IsWritableSnap snaps.now }
    ensures { result ≡ plot_of width height snaps.now }
{
    Plot {
        width,
        height,
        last: snaps.at(snaps.len() - 1).time,
        peak: greatest_sum(snaps),
    }
}

fn greatest_sum(snaps: &Snaps) -> u64
    requires numbers { All IsWritableSnap snaps.now }
    ensures { result ≡ greatest_sum snaps.now }
{
    let mut greatest = 0;
    'each_snap: for place in 0..snaps.len() {
        greatest = sum_of(snaps.at(place)).max(greatest);
    }
    greatest
}

/// The bytes of a snapshot: heap, administration and stacks.
pub(crate) fn sum_of(snap: &Snap) -> u64
    requires numbers { IsWritableSnap snap.now }
    ensures { result ≡ sum_of snap.now }
{
    snap.heap + snap.extra + snap.stacks
}
