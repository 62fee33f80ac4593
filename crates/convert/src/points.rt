//! The folded lines of a DHAT profile: its points by the texts of their frames, with a figure.

ghost use Rattle.std.specs.Prelude.{◌≡◌, ◌<◌, ◌≤◌, ◌^◌, ◌++◌, All, List, length, map, slice_index, sum, Some, None, IfErr, IfOk, OnErr, OnOk};
ghost use Rattle.cost_tree.specs.Costed.{Costed};
ghost use Rattle.dhat_json.specs.IsSound.{IsSound};
ghost use Rattle.dhat_view.specs.PointCosts.{point_costs};
ghost use Rattle.convert.specs.AreFolded.{GainsLines};
ghost use Rattle.convert.specs.ConvertFault.{IsFaultOf, IsRefused, folded_fault};
ghost use Rattle.convert.specs.Folded.{folded_text};
ghost use Rattle.convert.specs.Items.{point_items};
ghost use Rattle.convert.specs.Numbers.{SumsUp};
ghost use Rattle.convert.specs.PointSums.{AreSumsOf, GainsFolded, GainsLinesOf};

use crate::fault::ConvertFault;
use crate::lines::put_lines;
use crate::list_sums::ListSums;
use dhat_json::{Dhat, FigureKey, FrameList};
use dhat_view::{ShownTexts, figure_at, figures_sum, shown_table};
use hp_num::NoMemory;
use std::alloc::Global;

/// Appends the folded lines of the profile: for each list of texts that some points have whose figures of the key have a
/// sum other than 0, these texts from the outermost frame to the innermost with `;` between them, a blank, the sum and a
/// line feed. A `;` within a text is written `:`, a point without frames is `(no stack)`, and the lines stand by the first
/// point that has their list and a figure other than 0. Texts are shown as `put_shown` shows them.
///
/// The profile must be as `dhat_view::fronts_of` says. `NoFigures` comes exactly where the points have no figures of the key, and then
/// `TooLarge` exactly where these sum to more than 2^62; both take no memory. On any fault, `out` holds what it held before.
pub fn put_folded_dhat(
    alloc: Global,
    key: FigureKey,
    dhat: &Dhat,
    out: &mut Vec<u8>,
) -> Result<(), ConvertFault>
    requires sound { IsSound dhat.now }
    ensures appended { OnOk result
        (out.new.items ≡ out.old.items ++ folded_text (point_items key dhat.now)) }

    // For each list the lines have the sum of the points with that list, and a list whose sum is 0 has no line.
    ensures sums { OnOk result (GainsLines (point_items key dhat.now) out.old.items out.new.items) }

    ensures no_fault { OnOk result (folded_fault key dhat.now ≡ None) }
    ensures fault { IfErr result (λ fault. IsFaultOf (folded_fault key dhat.now) fault) }
    ensures refused { IsRefused (folded_fault key dhat.now) result }
    ensures unchanged { OnErr result (out.new.items ≡ out.old.items) }
{
    match PointSums::of(alloc, key, dhat) {
        Ok(sums) => match sums.put(out) {
            Ok(()) => Ok(()),
            Err(NoMemory) => Err(ConvertFault::NoMemory),
        },
        Err(fault) => Err(fault),
    }
}

/// What the points of a profile cost together by their lists of texts: what is read of it for its folded lines.
#[derive(Drop)]
pub struct PointSums {
    pub(crate) sums: ListSums,
}

impl PointSums {
    /// The sums of the figures of the key, where the profile is as `put_folded_dhat` says. Its faults are those of that call.
    pub fn of(alloc: Global, key: FigureKey, dhat: &Dhat) -> Result<PointSums, ConvertFault>
        requires sound { IsSound dhat.now }
        ensures sums { IfOk result (AreSumsOf (point_items key dhat.now)) }
        ensures no_fault { OnOk result (folded_fault key dhat.now ≡ None) }
        ensures fault { IfErr result (λ fault. IsFaultOf (folded_fault key dhat.now) fault) }
        ensures refused { IsRefused (folded_fault key dhat.now) result }
    {
        if !dhat.has_figures(key) {
            return Err(ConvertFault::NoFigures);
        }
        let Some(_total) = figures_sum(key, dhat) else {
            return Err(ConvertFault::TooLarge);
        };
        match point_sums(alloc, key, dhat) {
            Ok(sums) => Ok(PointSums { sums }),
            Err(NoMemory) => Err(ConvertFault::NoMemory),
        }
    }

    /// Appends the folded lines of the profile that the sums were read of. On `NoMemory`, `out` holds what it held before.
    pub fn put(&self, out: &mut Vec<u8>) -> Result<(), NoMemory>
        requires sums { (items : List Costed) × AreSumsOf items self.now }
        ensures appended { OnOk result (GainsFolded self.now out.old.items out.new.items) }

        // For each list the lines have the sum of the items with that list, and a list whose sum is 0 has no line.
        ensures sums { OnOk result (GainsLinesOf self.now out.old.items out.new.items) }

        ensures unchanged { OnErr result (out.new.items ≡ out.old.items) }
    {
        let start = out.len();
        match put_lines(&self.sums, out) {
            Ok(()) => Ok(()),
            Err(NoMemory) => {
                out.truncate(start);
                Err(NoMemory)
            }
        }
    }
}

/// The sums of the points' figures by their lists.
fn point_sums(alloc: Global, key: FigureKey, dhat: &Dhat) -> Result<ListSums, NoMemory>
    requires sound { IsSound dhat.now }
    requires within { sum (point_costs key dhat.now) ≤ 2 ^ 62 }
    ensures sums { IfOk result (λ sums. SumsUp sums (point_items key dhat.now)) }
{
    let table = shown_table(alloc, &dhat.ftbl)?;
    let ShownTexts { names, numbers, .. } = table;
    let mut list = Vec::new(alloc);
    let mut sums = ListSums::new(alloc, names);
    'each_point: for place in 0..dhat.pps.len() {
        number_frames(&numbers, &dhat.pps.at(place).fs, &mut list)?;
        sums.add(&list, figure_at(key, dhat, place))?;
    }
    Ok(sums)
}

/// Replaces `list` by the numbers of the frames' texts.
pub(crate) fn number_frames(
    numbers: &[usize],
    frames: &FrameList,
    list: &mut Vec<usize>,
) -> Result<(), NoMemory>
    requires in_table { All (λ frame. frame < length numbers.now) frames.now }
    ensures numbered { OnOk result
        (list.new.items ≡ map (λ frame. slice_index numbers.now frame) frames.now) }
{
    list.clear();
    'each_frame: for place in 0..frames.len() {
        let frame = *frames.at(place);
        list.push(numbers[frame as usize])?;
    }
    Ok(())
}
