//! What is read of a profile for its view, so that the profile can be let go before the tree is built.
#![tactic(auto, using(hp_num::proofs::Laws::extends_same, hp_num::proofs::Laws::extends_more, hp_num::proofs::Laws::extends_trans))]

ghost use Rattle.std.specs.Prelude.{◌≡◌, ◌≤◌, ◌^◌, ◌++◌, sum, None, IfErr, IfOk, OnOk};
ghost use Rattle.dhat_json.specs.IsSound.{IsSound};
ghost use Rattle.hp_num.specs.Extends.{Extends};
ghost use Rattle.dhat_view.specs.ArePartsOf.{ArePartsOf};
ghost use Rattle.dhat_view.specs.PointCosts.{point_costs};
ghost use Rattle.dhat_view.specs.ViewFault.{IsFaultOf, IsRefused, view_fault};
ghost use Rattle.dhat_view.specs.ViewText.{head_text, points_text, total_text};

use crate::fault::ViewFault;
use crate::fronts::fronts_of;
use crate::options::ViewOptions;
use crate::sums::{figures, figures_sum};
use cost_tree::Fronts;
use dhat_json::{Dhat, FigureKey, put_shown};
use hp_num::{NoMemory, put_bytes, put_dec};
use std::alloc::Global;

/// What a view shows of a profile, with these options.
#[derive(Drop)]
pub struct ViewParts {
    pub(crate) options: ViewOptions,
    /// What stands before the tree.
    pub(crate) head: Vec<u8>,
    /// The sum of the costs.
    pub(crate) total: u64,
    /// For each point the shown texts of its frames.
    pub(crate) fronts: Fronts,
    /// For each point what it costs.
    pub(crate) costs: Vec<u64>,
}

impl ViewParts {
    /// Reads what the view shows of the profile, which must be as `fronts_of` says. `NoFigures` comes exactly where the points have
    /// no figures of the key, and then `TooLarge` exactly where these sum to more than 2^62; both take no memory.
    pub fn of(alloc: Global, options: &ViewOptions, dhat: &Dhat) -> Result<ViewParts, ViewFault>
        requires sound { IsSound dhat.now }
        ensures parts { IfOk result (ArePartsOf options.now dhat.now) }
        ensures no_fault { OnOk result (view_fault options.now.key dhat.now ≡ None) }
        ensures fault { IfErr result (IsFaultOf (view_fault options.now.key dhat.now)) }
        ensures refused { IsRefused (view_fault options.now.key dhat.now) result }
    {
        if !dhat.has_figures(options.key) {
            return Err(ViewFault::NoFigures);
        }
        let Some(total) = figures_sum(options.key, dhat) else {
            return Err(ViewFault::TooLarge);
        };
        match parts_with(alloc, options, dhat, total) {
            Ok(parts) => Ok(parts),
            Err(NoMemory) => Err(ViewFault::NoMemory),
        }
    }
}

/// The parts, where the points cost so much together.
fn parts_with(
    alloc: Global,
    options: &ViewOptions,
    dhat: &Dhat,
    total: u64,
) -> Result<ViewParts, NoMemory>
    requires sound { IsSound dhat.now }
    requires total { total ≡ sum (point_costs options.now.key dhat.now) }
    requires within { total ≤ 2 ^ 62 }
    ensures { IfOk result (ArePartsOf options.now dhat.now) }
{
    let mut head = Vec::new(alloc);
    put_head(options.key, dhat, total, &mut head)?;
    let fronts = fronts_of(alloc, dhat)?;
    let costs = figures(alloc, options.key, dhat)?;
    Ok(ViewParts {
        options: *options,
        head,
        total,
        fronts,
        costs,
    })
}

/// Appends what stands before the tree.
fn put_head(key: FigureKey, dhat: &Dhat, total: u64, out: &mut Vec<u8>) -> Result<(), NoMemory>
    ensures appended { OnOk result (out.new.items ≡ out.old.items ++ head_text key dhat.now total) }
    ensures kept { Extends out.old.items out.new.items }
{
    put_points(dhat, out)?;
    put_total(key, total, out)
}

/// Appends the command and the number of points.
fn put_points(dhat: &Dhat, out: &mut Vec<u8>) -> Result<(), NoMemory>
    ensures appended { OnOk result (out.new.items ≡ out.old.items ++ points_text dhat.now) }
    ensures kept { Extends out.old.items out.new.items }
{
    put_bytes(out, b"command: ")?;
    put_shown(dhat.cmd.bytes(), out)?;
    put_bytes(out, b"\npoints: ")?;
    put_dec(out, dhat.pps.len() as u64)?;
    put_bytes(out, b"\n")
}

/// Appends the sum of the figures, and an empty line.
fn put_total(key: FigureKey, total: u64, out: &mut Vec<u8>) -> Result<(), NoMemory>
    ensures appended { OnOk result (out.new.items ≡ out.old.items ++ total_text key total) }
    ensures kept { Extends out.old.items out.new.items }
{
    put_bytes(out, key.key().name().as_bytes())?;
    put_bytes(out, b": ")?;
    put_dec(out, total)?;
    put_bytes(out, b"\n\n")
}
