//! The Massif profile of a DHAT profile: what was live at the peak, and what was live at the end.
ghost use Rattle.std.specs.Prelude.{◌≡◌, ◌≤◌, ◌^◌, [], ◌∷◌, sum, true, None, IfErr, IfOk, OnOk};
ghost use Rattle.dhat_json.specs.declared.figure.FigureKey.TheVariants.{Eb, Gb};
ghost use Rattle.dhat_json.specs.IsSound.{IsSound};
ghost use Rattle.dhat_view.specs.PointCosts.{point_costs};
ghost use Rattle.dhat_view.specs.PointFronts.{point_fronts};
ghost use Rattle.massif_file.specs.declared.profile.HeapTree.TheVariants.{Detailed, Peak};
ghost use Rattle.massif_file.specs.IsWritable.{IsWritable};
ghost use Rattle.massif_tree.specs.MassifTree.{massif_tree};
ghost use Rattle.convert.specs.AreTreeSums.{HaveTreeSums};
ghost use Rattle.convert.specs.ConvertFault.{IsFaultOf, IsRefused, converted_fault};
ghost use Rattle.convert.specs.Converted.{command_of, converted, peak_time, snap_with, snaps_of, tree_by, unit_of};

use crate::fault::ConvertFault;
use crate::point_lists::point_lists;
use cost_tree::{Costing, ForkedFronts};
use dhat_json::{Dhat, FigureKey, put_shown, shown_texts};
use dhat_view::{figure_at, figures_sum};
use hp_num::{NoMemory, Text};
use massif_file::{HeapTree, Profile, Snap, Snaps, TimeUnit, Tree};
use massif_tree::{TreeOptions, forked_lines, massif_trees};
use std::alloc::Global;

/// The greatest number that is converted.
const MOST: u64 = 1 << 62;

/// The frames that a tree of a converted profile has below one another at most.
const DEPTH: u32 = 200;

/// The Massif profile of the profile, whose times are in instructions where its own are, and else in events. Snapshot 0 has
/// what was live at the peak, and snapshot 1 what was live at the end, each with its whole tree to 200 frames.
///
/// The profile must be as `dhat_view::fronts_of` says. `NoFigures` comes exactly where its points tell of no lifetimes, and then
/// `TooLarge` exactly where the time at its end, the bytes that were live at the peak or those that were live at the end are
/// more than 2^62; both take no memory.
pub fn massif_of_dhat(alloc: Global, dhat: &Dhat) -> Result<Profile, ConvertFault>
    requires sound { IsSound dhat.now }
    ensures profile { IfOk result (λ profile. profile ≡ converted dhat.now) }

    // It may be written as a Massif file.
    ensures writable { IfOk result (λ profile. IsWritable profile) }

    // For each front of at most 200 texts the trees have the sum of the points that begin with it, and a front other than the
    // empty one whose sum is 0 has no line.
    ensures sums { IfOk result (λ profile. HaveTreeSums dhat.now profile) }

    ensures no_fault { OnOk result (converted_fault dhat.now ≡ None) }
    ensures fault { IfErr result (λ fault. IsFaultOf (converted_fault dhat.now) fault) }
    ensures refused { IsRefused (converted_fault dhat.now) result }
{
    // What holds of the trees of a profile, and of shown texts.
    massif_trees();
    shown_texts();
    if !dhat.bklt {
        return Err(ConvertFault::NoFigures);
    }
    if dhat.te > MOST {
        return Err(ConvertFault::TooLarge);
    }
    let Some(at_peak) = figures_sum(FigureKey::Gb, dhat) else {
        return Err(ConvertFault::TooLarge);
    };
    let Some(at_end) = figures_sum(FigureKey::Eb, dhat) else {
        return Err(ConvertFault::TooLarge);
    };
    match profile_of(alloc, dhat, at_peak, at_end) {
        Ok(profile) => Ok(profile),
        Err(NoMemory) => Err(ConvertFault::NoMemory),
    }
}

/// The profile, where so many bytes were live at the peak and at the end.
fn profile_of(alloc: Global, dhat: &Dhat, at_peak: u64, at_end: u64) -> Result<Profile, NoMemory>
    requires sound { IsSound dhat.now }
    requires at_peak { at_peak ≡ sum (point_costs Gb dhat.now) }
    requires at_end { at_end ≡ sum (point_costs Eb dhat.now) }
    requires peak_within { at_peak ≤ 2 ^ 62 }
    requires end_within { at_end ≤ 2 ^ 62 }
    ensures profile { IfOk result (λ profile. profile ≡ converted dhat.now) }
{
    let snaps = live_snaps(alloc, dhat, at_peak, at_end)?;
    let desc = Text::new(alloc, b"heapsuite convert")?;
    let cmd = command_text(alloc, dhat.cmd.bytes())?;
    Ok(Profile {
        desc,
        cmd,
        unit: time_unit(dhat.tu.bytes()),
        snaps,
    })
}

/// The shown command, and words of its own where it is empty.
fn command_text(alloc: Global, command: &[u8]) -> Result<Text, NoMemory>
    ensures { IfOk result (λ text. text ≡ command_of command.now) }
{
    if command.is_empty() {
        return Text::new(alloc, b"(none)");
    }
    let mut bytes = Vec::new(alloc);
    put_shown(command, &mut bytes)?;
    Ok(Text::from(bytes))
}

/// Instructions, where the unit of time is called so, and else events.
fn time_unit(unit: &[u8]) -> TimeUnit
    ensures { result ≡ unit_of unit.now }
{
    if unit == b"instrs".as_slice() {
        TimeUnit::Instructions
    } else {
        TimeUnit::Events
    }
}

fn live_snaps(alloc: Global, dhat: &Dhat, at_peak: u64, at_end: u64) -> Result<Snaps, NoMemory>
    requires sound { IsSound dhat.now }
    requires at_peak { at_peak ≡ sum (point_costs Gb dhat.now) }
    requires at_end { at_end ≡ sum (point_costs Eb dhat.now) }
    requires peak_within { at_peak ≤ 2 ^ 62 }
    requires end_within { at_end ≤ 2 ^ 62 }
    ensures snaps { IfOk result (λ snaps. snaps ≡ snaps_of dhat.now) }
{
    let fronts = point_lists(alloc, dhat)?;
    let snaps = snaps_over(alloc, dhat, &fronts, at_peak, at_end);
    drop(fronts);
    snaps
}

/// The snapshots of the peak and of the end, over these fronts, which are the points'.
fn snaps_over(
    alloc: Global,
    dhat: &Dhat,
    fronts: &ForkedFronts,
    at_peak: u64,
    at_end: u64,
) -> Result<Snaps, NoMemory>
    requires fronts { fronts.now ≡ point_fronts dhat.now }
    requires at_peak { at_peak ≡ sum (point_costs Gb dhat.now) }
    requires at_end { at_end ≡ sum (point_costs Eb dhat.now) }
    requires peak_within { at_peak ≤ 2 ^ 62 }
    requires end_within { at_end ≤ 2 ^ 62 }
    ensures snaps { IfOk result (λ snaps. snaps ≡ snaps_of dhat.now) }
{
    let peak_tree = live_tree(alloc, dhat, fronts, FigureKey::Gb, at_peak)?;
    let end_tree = end_tree(alloc, dhat, fronts, &peak_tree, at_end)?;
    let peak = live_snap(time_of_peak(dhat), at_peak, HeapTree::Peak, peak_tree);
    let end = live_snap(dhat.te, at_end, HeapTree::Detailed, end_tree);
    two_snaps(alloc, peak, end)
}

fn two_snaps(alloc: Global, peak: Snap, end: Snap) -> Result<Snaps, NoMemory>
    ensures { IfOk result (λ snaps. snaps ≡ peak ∷ end ∷ []) }
{
    let mut snaps = Snaps::new(alloc);
    snaps.push(peak)?;
    snaps.push(end)?;
    Ok(snaps)
}

/// The time of the peak, which is not after the end; the end where it isn't known.
fn time_of_peak(dhat: &Dhat) -> u64
    ensures { result ≡ peak_time dhat.now }
{
    match dhat.tg {
        Some(peak) => peak.min(dhat.te),
        None => dhat.te,
    }
}

fn live_snap(time: u64, heap: u64, mark: HeapTree, tree: Tree) -> Snap
    ensures { result ≡ snap_with time heap mark tree }
{
    Snap {
        time,
        heap,
        extra: 0,
        stacks: 0,
        mark,
        tree,
    }
}

/// The whole tree of these fronts, which are the points', with the points' figures of the key, which sum to the total.
fn live_tree(
    alloc: Global,
    dhat: &Dhat,
    fronts: &ForkedFronts,
    key: FigureKey,
    total: u64,
) -> Result<Tree, NoMemory>
    requires fronts { fronts.now ≡ point_fronts dhat.now }
    requires total { total ≡ sum (point_costs key dhat.now) }
    requires within { total ≤ 2 ^ 62 }
    ensures tree { IfOk result (λ tree. tree ≡ tree_by key dhat.now) }
{
    let costing = Costing::new(
        fronts.len(),
        |point: u32| figure_at(key, dhat, point as usize),
    );
    let options = TreeOptions {
        threshold: 0,
        depth: DEPTH,
    };
    forked_lines(alloc, fronts, &costing, &options, total)
}

/// The tree of the end of these fronts, which are the points'. Where each point has as much live at the end as at the peak, it is
/// the tree of the peak.
fn end_tree(
    alloc: Global,
    dhat: &Dhat,
    fronts: &ForkedFronts,
    peak_tree: &Tree,
    at_end: u64,
) -> Result<Tree, NoMemory>
    requires fronts { fronts.now ≡ point_fronts dhat.now }
    requires peak { peak_tree.now ≡ tree_by Gb dhat.now }
    requires total { at_end ≡ sum (point_costs Eb dhat.now) }
    requires within { at_end ≤ 2 ^ 62 }
    ensures tree { IfOk result (λ tree. tree ≡ tree_by Eb dhat.now) }
{
    if ends_as_at_peak(dhat) {
        return peak_tree.copy(alloc);
    }
    live_tree(alloc, dhat, fronts, FigureKey::Eb, at_end)
}

/// Whether each point has as much live at the end as at the peak, as in a program that frees nothing.
fn ends_as_at_peak(dhat: &Dhat) -> bool
    ensures { result ≡ true → point_costs Eb dhat.now ≡ point_costs Gb dhat.now }
{
    'each_point: for place in 0..dhat.pps.len() {
        let at_end = figure_at(FigureKey::Eb, dhat, place);
        if at_end != figure_at(FigureKey::Gb, dhat, place) {
            return false;
        }
    }
    true
}
