//! The graph of a page: its rows from the top, and the line below them.
#![tactic(auto, using(hp_num::proofs::Laws::extends_same, hp_num::proofs::Laws::extends_more, hp_num::proofs::Laws::extends_trans))]

ghost use Rattle.std.specs.Prelude.{◌≡◌, ◌<◌, All, replicate};
ghost use Rattle.hp_num.specs.Extends.{Extends};
ghost use Rattle.ms_print.specs.Appends.{Appends};
ghost use Rattle.ms_print.specs.BarSteps.{AreBars, IsPlotted};
ghost use Rattle.ms_print.specs.GraphText.{axis_text, edge_text, graph_text, row_cells, row_text, rows_text};
ghost use Rattle.massif_file.specs.declared.profile.TimeUnit.TheVariants.{Bytes};
ghost use Rattle.ms_print.specs.Labels.{label_text};

use crate::bars::{Bar, bars_of};
use crate::cells::cell_of;
use crate::label::{label_of, unit_label};
use crate::plot::Plot;
use hp_num::{NoMemory, put_bytes, put_right};
use massif_file::{Snaps, TimeUnit};
use std::alloc::Global;

/// The width of the column of labels.
const LABEL_WIDTH: usize = 5;

/// Appends the graph of snapshots, whose times have a unit. On `NoMemory`, some of it may stand at the end of `out`.
#[tactic(auto, unfolding(crate::specs::GraphText::graph_text))]
pub(crate) fn put_graph(
    alloc: Global,
    unit: TimeUnit,
    plot: Plot,
    snaps: &Snaps,
    out: &mut Vec<u8>,
) -> Result<(), NoMemory>
    requires wide { 0 < plot.width }
    requires plotted { All (IsPlotted plot) snaps.now }
    ensures appended { Appends (graph_text unit plot snaps.now) out.old out.new result }
    ensures kept { Extends out.old.items out.new.items }
{
    put_bytes(out, b"    ")?;
    put_bytes(out, unit_label(TimeUnit::Bytes, plot.peak))?;
    put_bytes(out, b"\n")?;
    put_rows(alloc, plot, snaps, out)?;
    put_axis(alloc, unit, plot, out)
}

/// Appends the rows, from the top.
fn put_rows(alloc: Global, plot: Plot, snaps: &Snaps, out: &mut Vec<u8>) -> Result<(), NoMemory>
    requires wide { 0 < plot.width }
    requires plotted { All (IsPlotted plot) snaps.now }
    ensures appended { Appends (rows_text plot snaps.now plot.height) out.old out.new result }
    ensures kept { Extends out.old.items out.new.items }
{
    let bars = bars_of(alloc, plot, snaps)?;
    let label = label_of(alloc, TimeUnit::Bytes, plot.peak)?;
    'each_row: for below in (0..plot.height).rev() {
        put_row(plot, snaps, &bars, &label, below + 1, out)?;
    }
    Ok(())
}

/// Appends row `y`. The bars are those of the snapshots.
#[tactic(auto, unfolding(crate::specs::GraphText::row_text))]
fn put_row(
    plot: Plot,
    snaps: &Snaps,
    bars: &[Option<Bar>],
    label: &[u8],
    y: u32,
    out: &mut Vec<u8>,
) -> Result<(), NoMemory>
    requires bars { AreBars plot snaps.now bars.now }
    requires label { label.now ≡ label_text Bytes plot.peak }
    ensures appended { Appends (row_text plot snaps.now y) out.old out.new result }
    ensures kept { Extends out.old.items out.new.items }
{
    put_edge(plot, label, y, out)?;
    put_cells(plot, snaps, bars, y, out)?;
    put_bytes(out, b"\n")
}

/// Appends what stands before the cells of row `y`.
#[tactic(auto, unfolding(crate::specs::GraphText::edge_text))]
fn put_edge(plot: Plot, label: &[u8], y: u32, out: &mut Vec<u8>) -> Result<(), NoMemory>
    requires label { label.now ≡ label_text Bytes plot.peak }
    ensures appended { Appends (edge_text plot y) out.old out.new result }
    ensures kept { Extends out.old.items out.new.items }
{
    if y != plot.height {
        return put_bytes(out, b"     |");
    }
    put_right(out, label, LABEL_WIDTH)?;
    put_bytes(out, b"^")
}

/// Appends the cells of row `y`.
fn put_cells(
    plot: Plot,
    snaps: &Snaps,
    bars: &[Option<Bar>],
    y: u32,
    out: &mut Vec<u8>,
) -> Result<(), NoMemory>
    requires bars { AreBars plot snaps.now bars.now }
    ensures appended { Appends (row_cells plot snaps.now y) out.old out.new result }
    ensures kept { Extends out.old.items out.new.items }
{
    let mut nearest = None;
    'each_column: for bar in bars {
        nearest = bar.or(nearest);
        out.push(cell_of(*bar, nearest, y))?;
    }
    Ok(())
}

/// Appends the line below the rows, with the labels of its ends.
#[tactic(auto, unfolding(crate::specs::GraphText::axis_text))]
fn put_axis(alloc: Global, unit: TimeUnit, plot: Plot, out: &mut Vec<u8>) -> Result<(), NoMemory>
    requires wide { 0 < plot.width }
    ensures appended { Appends (axis_text unit plot) out.old out.new result }
    ensures kept { Extends out.old.items out.new.items }
{
    let width = plot.width as usize - 1;
    put_bytes(out, b"   0 +")?;
    put_dashes(width, out)?;
    put_bytes(out, b">")?;
    put_bytes(out, unit_label(unit, plot.last))?;
    put_bytes(out, b"\n     0")?;
    put_right(out, &label_of(alloc, unit, plot.last)?, width)?;
    put_bytes(out, b"\n\n")
}

/// Appends so many dashes.
pub(crate) fn put_dashes(count: usize, out: &mut Vec<u8>) -> Result<(), NoMemory>
    ensures appended { Appends (replicate count 45) out.old out.new result }
    ensures kept { Extends out.old.items out.new.items }
{
    out.reserve(count)?;
    out.resize(out.len() + count, b'-')?;
    Ok(())
}
