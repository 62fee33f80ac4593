//! Lists of texts that are kept as a tree up to where each goes on alone.
//! What the lists cost, and which lines they have, is told for each tree.
ghost use Rattle.std.specs.Prelude.{◌≡◌, length, IfOk};
ghost use Rattle.cost_tree.specs.Alone.{IsForking};
ghost use Rattle.cost_tree.specs.Texts.{AreTexts, lists_of};

use crate::chains::Chains;
use crate::cut::Cut;
use crate::room::CutRoom;
use crate::scale::Scale;
use hp_num::NoMemory;
use intern_tables::Names;
use std::alloc::Global;
use std::marker::Model;

/// Lists of texts, numbered from 0. A tree has a node for each front that several of them share, and no more than a few for those
/// that one of them alone begins with.
///
/// Contracts see the list of the lists.
#[derive(Drop)]
pub struct ForkedFronts {
    pub(crate) names: Names,
    pub(crate) whole: Chains,
    pub(crate) cut: Cut,
}

impl Model for ForkedFronts {
    ghost use Rattle.std.specs.Prelude.{ℕ, List};
    ghost use Rattle.cost_tree.specs.Alone.{IsForking};
    ghost use Rattle.cost_tree.specs.Texts.{lists_of};

    ghost Value = { List (List (List ℕ)) };

    ghost view = { λ fronts. lists_of fronts.names fronts.whole };

    ghost invariant = { λ fronts. IsForking fronts.names fronts.whole fronts.cut };
}

impl ForkedFronts {
    /// The lists of the texts that the numbers are those of, each of which must be one of a name, or `NoMemory`.
    pub fn new(alloc: Global, names: Names, lists: Chains) -> Result<ForkedFronts, NoMemory>
        requires texts { AreTexts names lists }
        ensures lists { IfOk result (λ fronts. fronts ≡ lists_of names lists) }
    {
        let cut = forked(alloc, &names, &lists)?;
        Ok(ForkedFronts {
            names,
            whole: lists,
            cut,
        })
    }

    /// How many lists there are.
    pub fn len(&self) -> u32
        ensures count { result ≡ length self.now }
    {
        self.whole.len()
    }
}

/// The lists as they are cut where they go on alone, or `NoMemory`.
fn forked(alloc: Global, names: &Names, lists: &Chains) -> Result<Cut, NoMemory>
    requires texts { AreTexts names.now lists.now }
    ensures cut { IfOk result (λ cut. IsForking names.now lists.now cut) }
{
    let costs: Vec<u64> = vec![in alloc; 1; lists.len() as usize]?;
    // Where each list costs 1, a front that one list alone begins with is too small for a line, and each other one isn't.
    let shared = Scale {
        total: 1,
        threshold: 20_000,
    };
    // Says that no two names are equal.
    let _count = names.len();
    let mut cut = Cut::of(alloc, lists)?;
    cut.lengthen(alloc, lists, &costs, shared, &mut CutRoom::new(alloc))?;
    Ok(cut)
}
