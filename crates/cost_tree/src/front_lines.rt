//! The lines of lists of texts with their costs, each with what it shows.
//! How a line is written is the business of the callers.
ghost use Rattle.std.specs.Prelude.{◌≡◌, ◌^◌, ◌≤◌, [], length, sum, IfOk};
ghost use Rattle.cost_tree.specs.AreLinesOf.{GivesLines};
ghost use Rattle.cost_tree.specs.Costs.{HasCosts, IsStated};
ghost use Rattle.cost_tree.specs.IsShownAs.{IsPlaceOf, IsShownIn, TakesCosted, TakesStated};
ghost use Rattle.cost_tree.specs.TreeLines.{IsPlace, front_at, shown_at};
ghost use Rattle.cost_tree.specs.TreeTails.{TakesAllTailed};

use crate::costing::Costing;
use crate::forked_fronts::ForkedFronts;
use crate::front_line_taker::FrontLineTaker;
use crate::line::{CostLine, Place};
use crate::line_taker::CostLineTaker;
use crate::lines::take_lines;
use crate::room::NodeRoom;
use crate::scale::Scale;
use crate::shown_line::{ShownLine, ShownPlace};
use crate::tails::CutLists;
use crate::tree::CostTree;
use hp_num::NoMemory;
use std::alloc::Global;

/// Gives the lines of the lists with these costs to a taker one by one, to fronts of at most `depth` texts, and answers the
/// taker, or `NoMemory`. They are those that `cost_lines` gives of a tree.
pub fn take_front_lines<F: Fn(u32) -> u64, T: FrontLineTaker + Drop>(
    alloc: Global,
    fronts: &ForkedFronts,
    costing: &Costing<F>,
    scale: Scale,
    depth: u32,
    taker: T,
) -> Result<T, NoMemory>
    requires as_many { costing.now.stacks ≡ length fronts.now }
    requires stated { IsStated F.pre F.post costing.now }
    ensures taken { IfOk result
        (TakesStated T.takes (HasCosts F.pre F.post costing.now) depth scale fronts.now taker) }
{
    let costs = costing.list(alloc)?;
    take_costed(alloc, fronts, &costs, scale, depth, taker)
}

/// Gives the lines of the lists with these costs, as `take_front_lines` does.
fn take_costed<T: FrontLineTaker + Drop>(
    alloc: Global,
    fronts: &ForkedFronts,
    costs: &[u64],
    scale: Scale,
    depth: u32,
    taker: T,
) -> Result<T, NoMemory>
    requires as_many { length costs.now ≡ length fronts.now }
    requires bound { sum costs.now ≤ 2 ^ 62 }
    ensures taken { IfOk result (TakesCosted T.takes depth scale fronts.now costs.now taker) }
{
    let mut told = taker;
    told.take_texts(&fronts.names)?;
    let lists = CutLists {
        names: &fronts.names,
        whole: &fronts.whole,
        counts: &fronts.cut.counts,
        depth: depth as usize,
    };
    let ForkedFronts { names, cut, .. } = fronts;
    let room = &mut NodeRoom::new(alloc);
    let tree = CostTree::of_shape(alloc, names, &cut.shape, costs, depth, room)?;
    let taken = take_tailed(alloc, &tree, scale, lists, told);
    drop(tree);
    taken
}

/// Gives the lines of the tree, and behind that of a front those of the list that goes on alone from there.
fn take_tailed<T: FrontLineTaker + Drop>(
    alloc: Global,
    tree: &CostTree,
    scale: Scale,
    lists: CutLists,
    taker: T,
) -> Result<T, NoMemory>
    requires tree { GivesLines tree.now }
    ensures taken { IfOk result (TakesAllTailed T.takes scale tree.now lists.entry taker) }
{
    let mut lines = TailedLines {
        lists,
        numbers: Vec::new(alloc),
        taker,
    };
    take_lines(alloc, tree, scale, &mut lines)?;
    let TailedLines { taker, .. } = lines;
    Ok(taker)
}

/// Takes the lines of a tree, and shows them to a taker, with those of the lists that go on alone.
#[derive(Drop)]
struct TailedLines<'a, T: FrontLineTaker + Drop> {
    lists: CutLists<'a>,
    /// A buffer for the numbers of a list.
    numbers: Vec<usize>,
    taker: T,
}

impl<'a, T: FrontLineTaker + Drop> CostLineTaker for TailedLines<'a, T> {
    ghost use Rattle.std.specs.Prelude.{◌≡◌};
    ghost use Rattle.cost_tree.specs.TreeTails.{TakesTailed};

    ghost takes = { λ tree first lines now. (now.lists ≡ first.lists)
        × TakesTailed T.takes tree first.lists first.taker lines now.taker };

    fn take_line(&mut self, tree: &CostTree, line: CostLine) -> Result<(), NoMemory> {
        let shown = shown_line(tree, line);
        let Some(list) = self.lists.going_on(tree, line) else {
            return self.taker.take_line(shown);
        };
        let TailedLines {
            lists,
            numbers,
            taker,
        } = self;
        lists.take_with_tail(list, shown, numbers, taker)
    }
}

/// What a line of the tree shows.
fn shown_line<'a>(tree: &'a CostTree, line: CostLine) -> ShownLine<'a>
    requires root { front_at tree.now 0 ≡ [] }
    requires place { IsPlace tree.now line.place }
    ensures { IsShownIn tree.now line result }
{
    ShownLine {
        level: line.level,
        children: line.children,
        cost: line.cost,
        shown: shown_place(tree, line.place),
    }
}

/// What a place of it shows.
fn shown_place<'a>(tree: &'a CostTree, place: Place) -> ShownPlace<'a>
    requires root { front_at tree.now 0 ≡ [] }
    requires place { IsPlace tree.now place }
    ensures { IsPlaceOf tree.now.names result (shown_at tree.now place) }
{
    match place {
        Place::Node { node } => ShownPlace::Front {
            text: tree.text(node),
            number: tree.text_number(node),
        },
        Place::Gathered { places } => ShownPlace::Gathered { places },
    }
}
