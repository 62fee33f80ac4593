//! The view of a profile, and of what was read of one.
#![tactic(auto, using(hp_num::proofs::Laws::extends_same, hp_num::proofs::Laws::extends_more, hp_num::proofs::Laws::extends_trans))]

ghost use Rattle.std.specs.Prelude.{◌≡◌, ◌++◌, None, IfErr, IfOk, OnErr, OnOk};
ghost use Rattle.dhat_json.specs.IsSound.{IsSound};
ghost use Rattle.hp_num.specs.Extends.{Extends};
ghost use Rattle.dhat_view.specs.ArePartsOf.{AreParts, GainsSumsOf, GainsViewOf};
ghost use Rattle.dhat_view.specs.AreViewSums.{GainsView};
ghost use Rattle.dhat_view.specs.ViewFault.{IsFaultOf, IsRefused, view_fault};
ghost use Rattle.dhat_view.specs.ViewText.{view_by};

use crate::fault::ViewFault;
use crate::options::ViewOptions;
use crate::parts::ViewParts;
use crate::tree::put_tree;
use cost_tree::CostTree;
use dhat_json::Dhat;
use hp_num::{NoMemory, put_bytes};
use std::alloc::Global;

/// Appends the view of the profile: its command, how many points it has, the sum of the key's figures, an empty line, and
/// the tree of the points' frames with what the points cost below each front of them. Children that cost a smaller share
/// of the sum than the threshold stand together in one last line; the others stand by descending cost, of equal ones that
/// of the lower point first. Texts are shown as `put_shown` shows them.
///
/// The profile must be as `fronts_of` says. `NoFigures` comes exactly where the points have no figures of the key, and then
/// `TooLarge` exactly where these sum to more than 2^62; both take no memory. On any fault, `out` holds what it held before.
pub fn put_view(
    alloc: Global,
    options: &ViewOptions,
    dhat: &Dhat,
    out: &mut Vec<u8>,
) -> Result<(), ViewFault>
    requires sound { IsSound dhat.now }
    ensures appended { OnOk result
        (out.new.items ≡ out.old.items ++ view_by options.now dhat.now) }

    // Each line of a front has the sum over the points that begin with it, and one of gathered places their sum and number.
    ensures sums { OnOk result (GainsView options.now dhat.now out.old.items out.new.items) }

    ensures no_fault { OnOk result (view_fault options.now.key dhat.now ≡ None) }
    ensures fault { IfErr result (IsFaultOf (view_fault options.now.key dhat.now)) }
    ensures refused { IsRefused (view_fault options.now.key dhat.now) result }
    ensures unchanged { OnErr result (out.new.items ≡ out.old.items) }
{
    match ViewParts::of(alloc, options, dhat) {
        Ok(parts) => match parts.put(alloc, out) {
            Ok(()) => Ok(()),
            Err(NoMemory) => Err(ViewFault::NoMemory),
        },
        Err(fault) => Err(fault),
    }
}

impl ViewParts {
    /// Appends the view of the profile that the parts were read of, as `put_view` does, and lets each part go once it isn't needed.
    /// On `NoMemory`, `out` holds what it held before.
    pub fn put(self, alloc: Global, out: &mut Vec<u8>) -> Result<(), NoMemory>
        requires parts { AreParts self }
        ensures appended { OnOk result (GainsViewOf self out.old.items out.new.items) }

        // Each line of a front has the sum over the points that begin with it, and one of gathered places their sum and number.
        ensures sums { OnOk result (GainsSumsOf self out.old.items out.new.items) }

        ensures unchanged { OnErr result (out.new.items ≡ out.old.items) }
    {
        let start = out.len();
        match put_parts(alloc, self, out) {
            Ok(()) => Ok(()),
            Err(NoMemory) => {
                out.truncate(start);
                Err(NoMemory)
            }
        }
    }
}

/// Appends the head and the tree. On `NoMemory`, some of it may stand at the end of `out`.
fn put_parts(alloc: Global, parts: ViewParts, out: &mut Vec<u8>) -> Result<(), NoMemory>
    requires parts { AreParts parts }
    ensures appended { OnOk result (GainsViewOf parts out.old.items out.new.items) }
    ensures kept { Extends out.old.items out.new.items }
{
    let ViewParts {
        options,
        head,
        total,
        fronts,
        costs,
    } = parts;
    put_bytes(out, &head)?;
    drop(head);
    let tree = CostTree::of_own(alloc, fronts, &costs, options.depth)?;
    drop(costs);
    put_tree(alloc, &options, total, &tree, out)
}
