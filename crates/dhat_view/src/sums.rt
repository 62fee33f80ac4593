//! What the points of a profile cost together.
ghost use Rattle.std.specs.Prelude.{◌≡◌, ◌<◌, ◌≤◌, ◌^◌, IfOk, IfSome, IfNone, slice_get, Some, length, sum};
ghost use Rattle.dhat_view.specs.PointCosts.{point_costs};

use dhat_json::{Dhat, FigureKey};
use hp_num::NoMemory;
use std::alloc::Global;

/// The greatest sum of figures that has a view.
const MOST: u128 = 1 << 62;

/// The sum of the points' figures of the key, which the profile must have. `None` where it is above 2^62. It takes no
/// memory.
pub fn figures_sum(key: FigureKey, dhat: &Dhat) -> Option<u64>
    requires few { length dhat.now.pps < 2 ^ 32 }
    ensures sum { IfSome result (λ total. total ≡ sum (point_costs key dhat.now)) }
    ensures within { IfSome result (λ total. total ≤ 2 ^ 62) }
    ensures too_large { IfNone result (2 ^ 62 < sum (point_costs key dhat.now)) }
{
    let mut total: u128 = 0;
    'each_point: for place in 0..dhat.pps.len() {
        total += u128::from(figure_at(key, dhat, place));
    }
    if total > MOST {
        return None;
    }
    Some(total as u64)
}

/// The figure of the point at this place, and 0 where the points have no figures of the key.
pub fn figure_at(key: FigureKey, dhat: &Dhat, place: usize) -> u64
    requires held { place < length dhat.now.pps }
    ensures figure { slice_get (point_costs key dhat.now) place ≡ Some result }
{
    dhat.pps.at(place).figure(key).unwrap_or(0)
}

/// The figures of the points, which the profile must have; 0 where it hasn't. `NoMemory` where memory is wanting.
pub(crate) fn figures(alloc: Global, key: FigureKey, dhat: &Dhat) -> Result<Vec<u64>, NoMemory>
    ensures { IfOk result (λ figures. figures.items ≡ point_costs key dhat.now) }
{
    let mut figures = Vec::with_capacity(alloc, dhat.pps.len())?;
    'each_point: for place in 0..dhat.pps.len() {
        figures.push(figure_at(key, dhat, place))?;
    }
    Ok(figures)
}
