//! The bars of a graph: which snapshot each column shows.
ghost use Rattle.std.specs.Prelude.{◌≡◌, ◌<◌, All, IfOk};
ghost use Rattle.ms_print.specs.Bars.{bar_for, bar_in};
ghost use Rattle.ms_print.specs.BarSteps.{AreBars, IsPlotted, better, rank_of};

use crate::plot::{Plot, sum_of};
use hp_num::NoMemory;
use massif_file::{HeapTree, Snap, Snaps};
use std::alloc::Global;

/// The bar of a column.
#[derive(Clone, Copy)]
pub(crate) struct Bar {
    /// How many rows it fills.
    pub(crate) height: u32,
    /// The mark of its snapshot.
    pub(crate) mark: HeapTree,
}

/// The bar of each column, from the first on, where it has one.
pub(crate) fn bars_of(
    alloc: Global,
    plot: Plot,
    snaps: &Snaps,
) -> Result<Vec<Option<Bar>>, NoMemory>
    requires wide { 0 < plot.width }
    requires plotted { All (IsPlotted plot) snaps.now }
    ensures bars { IfOk result (λ bars. AreBars plot snaps.now bars.items) }
{
    let mut bars = vec![in alloc; None; plot.width as usize]?;
    'each_snap: for place in 0..snaps.len() {
        let snap = snaps.at(place);
        let column = plot.column(snap.time) - 1;
        bars[column] = Some(better(bars[column], bar_for(plot, snap)));
    }
    Ok(bars)
}

/// The bar of column `x`, where it has one. It takes no memory.
pub(crate) fn bar_in(plot: Plot, snaps: &Snaps, x: usize) -> Option<Bar>
    requires wide { 0 < plot.width }
    requires plotted { All (IsPlotted plot) snaps.now }
    ensures { result ≡ bar_in plot snaps.now x }
{
    let mut bar = None;
    'each_snap: for place in 0..snaps.len() {
        let snap = snaps.at(place);
        if plot.column(snap.time) == x {
            bar = Some(better(bar, bar_for(plot, snap)));
        }
    }
    bar
}

fn bar_for(plot: Plot, snap: &Snap) -> Bar
    requires plotted { IsPlotted plot snap.now }
    ensures { result ≡ bar_for plot snap.now }
{
    Bar {
        height: plot.rows(sum_of(snap)),
        mark: snap.mark,
    }
}

/// Which bar a column shows that had one or none, after a later snapshot with another.
fn better(bar: Option<Bar>, later: Bar) -> Bar
    ensures { result ≡ better bar later }
{
    match bar {
        Some(bar) if rank_of(later.mark) < rank_of(bar.mark) => bar,
        _ => later,
    }
}

/// A peak stands before a detailed snapshot, and that before one without a tree.
fn rank_of(mark: HeapTree) -> u8
    ensures { result ≡ rank_of mark }
{
    match mark {
        HeapTree::Empty => 0,
        HeapTree::Detailed => 1,
        HeapTree::Peak => 2,
    }
}
