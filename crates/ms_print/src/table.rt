//! The table of a page: a row for each snapshot, and its tree.
#![tactic(auto, using(hp_num::proofs::Laws::extends_same, hp_num::proofs::Laws::extends_more, hp_num::proofs::Laws::extends_trans))]

ghost use Rattle.std.specs.Prelude.{◌≡◌, ◌≤◌, All};
ghost use Rattle.hp_num.specs.Extends.{Extends};
ghost use Rattle.massif_file.specs.IsRight.{IsTreeOf};
ghost use Rattle.massif_file.specs.IsWritable.{IsWritableSnap};
ghost use Rattle.massif_file.specs.Trees.{IsTree};
ghost use Rattle.ms_print.specs.Appends.{Appends};
ghost use Rattle.ms_print.specs.Rows.{HasTree};
ghost use Rattle.ms_print.specs.TableText.{below_row, column_text, head_before, head_text, number_column, rule_line, snap_row, snap_tree, table_text, time_head};

use crate::entry::Scale;
use crate::graph::put_dashes;
use crate::plot::sum_of;
use crate::tree::put_tree;
use hp_num::{NoMemory, put_bytes, put_commas, put_dec, put_right};
use massif_file::{HeapTree, Snap, Snaps, TimeUnit};
use std::alloc::Global;

/// The length of a rule.
const RULE: usize = 80;

/// Appends the table. On `NoMemory`, some of it may stand at the end of `out`.
#[tactic(auto, unfolding(crate::specs::TableText::table_text))]
pub(crate) fn put_table(
    alloc: Global,
    threshold: u64,
    unit: TimeUnit,
    snaps: &Snaps,
    out: &mut Vec<u8>,
) -> Result<(), NoMemory>
    requires threshold { threshold ≤ 10000 }
    requires numbers { All IsWritableSnap snaps.now }
    requires trees { All HasTree snaps.now }
    ensures appended { Appends (table_text threshold unit snaps.now) out.old out.new result }
    ensures kept { Extends out.old.items out.new.items }
{
    put_head(unit, out)?;
    'each_snap: for place in 0..snaps.len() {
        let snap = snaps.at(place);
        put_row(place as u64, snap, out)?;
        put_below(alloc, threshold, unit, snap, snaps.len() - place - 1, out)?;
    }
    Ok(())
}

/// Appends what stands below the row of a snapshot, where so many rows follow.
fn put_below(
    alloc: Global,
    threshold: u64,
    unit: TimeUnit,
    snap: &Snap,
    later: usize,
    out: &mut Vec<u8>,
) -> Result<(), NoMemory>
    requires threshold { threshold ≤ 10000 }
    requires numbers { IsWritableSnap snap.now }
    requires tree { IsTreeOf snap.now.mark snap.now.tree }
    ensures appended { Appends (below_row threshold unit snap.now snap.now.mark later) out.old out.new result }
    ensures kept { Extends out.old.items out.new.items }
{
    match snap.mark {
        HeapTree::Empty => Ok(()),
        HeapTree::Detailed => {
            put_snap_tree(alloc, threshold, snap, out)?;
            put_head_before(unit, later, out)
        }
        HeapTree::Peak => {
            put_snap_tree(alloc, threshold, snap, out)?;
            put_head_before(unit, later, out)
        }
    }
}

/// Appends the tree of a snapshot, and an empty line.
#[tactic(auto, unfolding(crate::specs::TableText::snap_tree))]
fn put_snap_tree(
    alloc: Global,
    threshold: u64,
    snap: &Snap,
    out: &mut Vec<u8>,
) -> Result<(), NoMemory>
    requires threshold { threshold ≤ 10000 }
    requires numbers { IsWritableSnap snap.now }
    requires tree { IsTree snap.now.tree }
    ensures appended { Appends (snap_tree threshold snap.now) out.old out.new result }
    ensures kept { Extends out.old.items out.new.items }
{
    let sum = sum_of(snap);
    put_tree(alloc, Scale { sum, threshold }, &snap.tree, out)?;
    put_bytes(out, b"\n")
}

/// Appends the heads of the columns, where rows follow.
#[tactic(auto, unfolding(crate::specs::TableText::head_before))]
fn put_head_before(unit: TimeUnit, later: usize, out: &mut Vec<u8>) -> Result<(), NoMemory>
    ensures appended { Appends (head_before unit later) out.old out.new result }
    ensures kept { Extends out.old.items out.new.items }
{
    if later == 0 {
        return Ok(());
    }
    put_head(unit, out)
}

/// Appends the heads of the columns, between two rules.
fn put_head(unit: TimeUnit, out: &mut Vec<u8>) -> Result<(), NoMemory>
    ensures appended { Appends (head_text unit) out.old out.new result }
    ensures kept { Extends out.old.items out.new.items }
{
    put_rule(out)?;
    put_bytes(out, b"  n ")?;
    put_right(out, time_head(unit), 14)?;
    put_bytes(
        out,
        b"         total(B)   useful-heap(B) extra-heap(B)    stacks(B)\n",
    )?;
    put_rule(out)
}

/// Appends a line of 80 dashes.
#[tactic(auto, unfolding(crate::specs::TableText::rule_line))]
pub(crate) fn put_rule(out: &mut Vec<u8>) -> Result<(), NoMemory>
    ensures appended { Appends rule_line out.old out.new result }
    ensures kept { Extends out.old.items out.new.items }
{
    put_dashes(RULE, out)?;
    put_bytes(out, b"\n")
}

fn time_head(unit: TimeUnit) -> &'static [u8]
    ensures { result.now ≡ time_head unit }
{
    match unit {
        TimeUnit::Instructions => b"time(i)",
        TimeUnit::Milliseconds => b"time(ms)",
        TimeUnit::Bytes => b"time(B)",
        TimeUnit::Events => b"time(e)",
    }
}

/// Appends the row of a snapshot with its number.
fn put_row(n: u64, snap: &Snap, out: &mut Vec<u8>) -> Result<(), NoMemory>
    requires numbers { IsWritableSnap snap.now }
    ensures appended { Appends (snap_row n snap.now) out.old out.new result }
    ensures kept { Extends out.old.items out.new.items }
{
    put_number(n, out)?;
    put_column(14, snap.time, out)?;
    put_column(16, sum_of(snap), out)?;
    put_column(16, snap.heap, out)?;
    put_column(13, snap.extra, out)?;
    put_column(12, snap.stacks, out)?;
    put_bytes(out, b"\n")
}

/// Appends the number of a snapshot, in the first column.
fn put_number(n: u64, out: &mut Vec<u8>) -> Result<(), NoMemory>
    ensures appended { Appends (number_column n) out.old out.new result }
    ensures kept { Extends out.old.items out.new.items }
{
    let mut digits = Vec::new(*out.allocator());
    put_dec(&mut digits, n)?;
    put_right(out, &digits, 3)
}

/// Appends a number in a column of this width.
#[tactic(auto, unfolding(crate::specs::TableText::column_text))]
fn put_column(width: usize, n: u64, out: &mut Vec<u8>) -> Result<(), NoMemory>
    ensures appended { Appends (column_text width n) out.old out.new result }
    ensures kept { Extends out.old.items out.new.items }
{
    let mut digits = Vec::new(*out.allocator());
    put_commas(&mut digits, n)?;
    put_bytes(out, b" ")?;
    put_right(out, &digits, width)
}
