//! Whether the frames of points are in a table.
ghost use Rattle.std.specs.Prelude.{◌<◌, All, IsTrue};

use crate::profile::Point;

/// Whether all frames of the points are.
pub(crate) fn are_in_table(points: &[Point], frames: usize) -> bool
    ensures { IsTrue result → All (λ point. All (λ frame. frame < frames) point.fs) points.now }
{
    for point in points {
        if !has_frames_below(point.fs.as_slice(), frames as u64) {
            return false;
        }
    }
    true
}

fn has_frames_below(list: &[u64], frames: u64) -> bool
    ensures { IsTrue result → All (λ frame. frame < frames) list.now }
{
    for frame in list {
        if *frame >= frames {
            return false;
        }
    }
    true
}
