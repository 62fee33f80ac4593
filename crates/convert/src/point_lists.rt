//! The frames of a profile's points as lists of texts, of which the trees of its Massif profile are made.
//! What the points cost is told for each tree.
ghost use Rattle.std.specs.Prelude.{◌≡◌, ◌-◌, ◌^◌, ◌<◌, All, length, IfOk};
ghost use Rattle.dhat_json.specs.declared.profile.Point.{Point};
ghost use Rattle.dhat_json.specs.IsSound.{IsSound};
ghost use Rattle.dhat_view.specs.Numbers.{numbers_in};
ghost use Rattle.dhat_view.specs.PointFronts.{point_fronts};

use crate::points::number_frames;
use cost_tree::{Chains, ForkedFronts};
use dhat_json::{Dhat, Points};
use dhat_view::{ShownTexts, shown_table};
use hp_num::NoMemory;
use std::alloc::Global;

/// For each point of the profile the shown texts of its frames, from the innermost outwards, or `NoMemory`.
/// The profile must be sound, as every one is that was read.
pub(crate) fn point_lists(alloc: Global, dhat: &Dhat) -> Result<ForkedFronts, NoMemory>
    requires sound { IsSound dhat.now }
    ensures lists { IfOk result (λ lists. lists ≡ point_fronts dhat.now) }
{
    let table = shown_table(alloc, &dhat.ftbl)?;
    let ShownTexts { names, numbers, .. } = table;
    let chains = point_numbers(alloc, &numbers, &dhat.pps)?;
    ForkedFronts::new(alloc, names, chains)
}

/// For each point the numbers of its frames in the table.
fn point_numbers(alloc: Global, table: &[usize], points: &Points) -> Result<Chains, NoMemory>
    requires few { length points.now < 2 ^ 32 - 1 }
    requires in_table { All (λ (point : Point). All (λ frame. frame < length table.now) point.fs)
        points.now }
    ensures numbers { IfOk result (λ lists. lists ≡ numbers_in table.now points.now) }
{
    let mut lists = Chains::new(alloc);
    let mut list = Vec::new(alloc);
    'each_point: for place in 0..points.len() {
        number_frames(table, &points.at(place).fs, &mut list)?;
        lists.push_list(&list)?;
    }
    Ok(lists)
}
