//! The frames of a profile's points as lists of texts, as a tree is built of.
ghost use Rattle.std.specs.Prelude.{◌≡◌, ◌-◌, ◌^◌, ◌<◌, All, length, IfOk, OnOk};
ghost use Rattle.dhat_json.specs.declared.profile.Point.{Point};
ghost use Rattle.dhat_json.specs.IsSound.{IsSound};
ghost use Rattle.dhat_view.specs.Numbers.{LastGains, numbers_at, numbers_in};
ghost use Rattle.dhat_view.specs.PointFronts.{point_fronts};

use crate::texts::{ShownTexts, shown_table};
use cost_tree::{Fronts, Shape};
use dhat_json::{Dhat, FrameList, Points};
use hp_num::NoMemory;
use std::alloc::Global;

/// For each point of the profile the shown texts of its frames, from the innermost outwards, or `NoMemory`.
///
/// The profile must have fewer than 2^32 - 1 points, frames below the table's length, and the parts that it tells of, as
/// every profile has that was read.
pub fn fronts_of(alloc: Global, dhat: &Dhat) -> Result<Fronts, NoMemory>
    requires sound { IsSound dhat.now }
    ensures fronts { IfOk result (λ fronts. fronts ≡ point_fronts dhat.now) }
{
    let table = shown_table(alloc, &dhat.ftbl)?;
    let ShownTexts { names, numbers, .. } = table;
    let shape = point_shape(alloc, &numbers, &dhat.pps)?;
    Ok(Fronts::from_parts(names, shape))
}

/// For each point the numbers of its frames in the table.
fn point_shape(alloc: Global, table: &[usize], points: &Points) -> Result<Shape, NoMemory>
    requires few { length points.now < 2 ^ 32 - 1 }
    requires in_table { All (λ (point : Point). All (λ frame. frame < length table.now) point.fs)
        points.now }
    ensures shape { IfOk result (λ shape. shape ≡ numbers_in table.now points.now) }
{
    let mut shape = Shape::new(alloc);
    'each_point: for place in 0..points.len() {
        shape.begin()?;
        push_frames(table, &points.at(place).fs, &mut shape)?;
    }
    Ok(shape)
}

/// Appends the numbers of the frames to the last list, of which there must be one.
fn push_frames(table: &[usize], frames: &FrameList, shape: &mut Shape) -> Result<(), NoMemory>
    requires in_table { All (λ frame. frame < length table.now) frames.now }
    requires begun { 0 < length shape.old }
    ensures gained { OnOk result
        (LastGains shape.old (numbers_at table.now frames.now) shape.new) }
    ensures count { length shape.new ≡ length shape.old }
{
    'each_frame: for place in 0..frames.len() {
        let frame = *frames.at(place);
        shape.push(table[frame as usize])?;
    }
    Ok(())
}
