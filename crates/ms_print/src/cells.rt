//! Single cells of a graph.
ghost use Rattle.std.specs.Prelude.{◌≡◌, ◌≤◌, ◌<◌, All};
ghost use Rattle.massif_file.specs.IsWritable.{IsWritable};
ghost use Rattle.ms_print.specs.Bars.{nearest_bar};
ghost use Rattle.ms_print.specs.BarSteps.{IsPlotted};
ghost use Rattle.ms_print.specs.Cells.{cell_of, page_cell, sign_of};

use crate::bars::{Bar, bar_in};
use crate::options::PageOptions;
use crate::plot::{Plot, plot_of};
use massif_file::{HeapTree, Profile, Snaps};

/// The cell of the page's graph in column `x` and row `y`, both counted from 1, columns from the left and rows from the bottom:
/// `#`, `@` or `:` at a bar of a peak, of a detailed snapshot or of another, and a blank elsewhere. It takes no memory.
///
/// The profile must be one that may be written, as every profile is that was read.
pub fn cell(options: &PageOptions, profile: &Profile, x: u32, y: u32) -> u8
    requires writable { IsWritable profile.now }
    requires first_column { 1 ≤ x }
    requires last_column { x ≤ options.now.x }
    requires first_row { 1 ≤ y }
    requires last_row { y ≤ options.now.y }
    ensures { result ≡ page_cell options.now profile.now.snaps x y }
{
    let plot = plot_of(options.x, options.y, &profile.snaps);
    let bar = bar_in(plot, &profile.snaps, x as usize);
    let nearest = nearest_bar(plot, &profile.snaps, x as usize);
    cell_of(bar, nearest, y)
}

/// The bar of column `x`, and where it has none the nearest one to the left.
fn nearest_bar(plot: Plot, snaps: &Snaps, x: usize) -> Option<Bar>
    requires wide { 0 < plot.width }
    requires plotted { All (IsPlotted plot) snaps.now }
    ensures { result ≡ nearest_bar plot snaps.now x }
{
    let mut left = x;
    'each_column: while left > 0 {
        let bar = bar_in(plot, snaps, left);
        if bar.is_some() {
            return bar;
        }
        left -= 1;
    }
    None
}

/// The cell in row `y` of a column with its bar, and with the nearest bar at it or to the left.
#[tactic(auto, unfolding(crate::specs::Cells::cell_of))]
pub(crate) fn cell_of(bar: Option<Bar>, nearest: Option<Bar>, y: u32) -> u8
    ensures { result ≡ cell_of bar nearest y }
{
    match (bar, nearest) {
        (Some(bar), _) if y <= bar.height => sign_of(bar.mark),
        (None, Some(left)) if y == left.height => sign_of(left.mark),
        _ => b' ',
    }
}

/// How the cells of a bar look.
fn sign_of(mark: HeapTree) -> u8
    ensures { result ≡ sign_of mark }
{
    match mark {
        HeapTree::Peak => b'#',
        HeapTree::Detailed => b'@',
        HeapTree::Empty => b':',
    }
}
