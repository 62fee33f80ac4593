//! Lists of texts that are cut where they go on alone, and the lines of their texts behind that.
//! Which fronts several lists share, and what they cost, is no part of it.
ghost use Rattle.std.specs.Prelude.{◌≡◌, ◌+◌, ◌<◌, if◌then◌else◌, nat_lt, length, true, IfSome, OnOk};
ghost use Rattle.cost_tree.specs.IsShownAs.{IsShownAs};
ghost use Rattle.cost_tree.specs.Tails.{goes_on, tail_line};
ghost use Rattle.cost_tree.specs.Texts.{texts_of};
ghost use Rattle.cost_tree.specs.TreeLines.{IsPlace};
ghost use Rattle.cost_tree.specs.TreeTails.{TakesTail, TakesWithTail, list_behind};

use crate::chains::Chains;
use crate::front_line_taker::FrontLineTaker;
use crate::line::{CostLine, Place};
use crate::shown_line::{ShownLine, ShownPlace};
use crate::tree::CostTree;
use hp_num::NoMemory;
use intern_tables::Names;

/// Lists of the numbers of texts, and how many of each a tree has.
#[derive(Clone, Copy)]
pub(crate) struct CutLists<'a> {
    pub(crate) names: &'a Names,
    pub(crate) whole: &'a Chains,
    pub(crate) counts: &'a [usize],
    /// How many texts lines show of a list at most.
    pub(crate) depth: usize,
}

impl<'a> CutLists<'a> {
    /// The list that goes on alone from the front of a line, if one does.
    pub(crate) fn going_on(&self, tree: &CostTree, line: CostLine) -> Option<u32>
        requires place { IsPlace tree.now line.place }
        ensures list { result ≡ list_behind self.now tree.now line }
        ensures held { IfSome result (λ list. list < length self.now.whole.now) }
    {
        let Place::Node { node } = line.place else {
            return None;
        };
        let list = tree.node(node).first;
        if !self.goes_on(list, line.level) {
            return None;
        }
        Some(list)
    }

    /// Whether the list is cut behind its first `count` texts, and lines show more of them.
    fn goes_on(&self, list: u32, count: usize) -> bool
        ensures on { result
            ≡ goes_on self.now.depth self.now.whole.now self.now.counts.now list count }
        ensures held { result ≡ true → list < length self.now.whole.now }
    {
        if list >= self.whole.len() {
            return false;
        }
        if count >= self.whole.count(list).min(self.depth) {
            return false;
        }
        match self.counts.get(list as usize) {
            Some(left) => *left == count,
            None => false,
        }
    }

    /// Gives the line of a front that the list goes on from, with one line below it, and then those of its further texts.
    /// `numbers` is a buffer.
    pub(crate) fn take_with_tail<T: FrontLineTaker>(
        &self,
        list: u32,
        line: ShownLine,
        numbers: &mut Vec<usize>,
        taker: &mut T,
    ) -> Result<(), NoMemory>
        requires held { list < length self.now.whole.now }
        ensures taken { OnOk result
            (TakesWithTail T.takes self.now list line.entry taker.old taker.new) }
    {
        self.whole.list_into(list, self.depth, numbers)?;
        let ShownLine {
            level,
            cost,
            shown,
            ..
        } = line;
        taker.take_line(ShownLine {
            level,
            children: 1,
            cost,
            shown,
        })?;
        take_tail(self.names, numbers, cost, level, taker)
    }
}

/// Gives the lines of more than `count` of the texts with these numbers, of which each front has one line and costs so much.
fn take_tail<T: FrontLineTaker>(
    names: &Names,
    numbers: &[usize],
    cost: u64,
    count: usize,
    taker: &mut T,
) -> Result<(), NoMemory>
    ensures taken { OnOk result
        (TakesTail T.takes names.now numbers.now cost count taker.old taker.new) }
{
    'each_text: for place in count..numbers.len() {
        taker.take_line(tail_line(names, numbers, cost, place))?;
    }
    Ok(())
}

/// The line of the texts up to this place.
fn tail_line<'a>(names: &'a Names, numbers: &[usize], cost: u64, place: usize) -> ShownLine<'a>
    requires within { place < length numbers.now }
    ensures { IsShownAs names.now result
        (tail_line (texts_of names.now numbers.now) cost (place + 1)) }
{
    let level = place + 1;
    let number = numbers[place];
    ShownLine {
        level,
        children: lines_below(level, numbers.len()),
        cost,
        shown: ShownPlace::Front {
            text: names.name(number).unwrap_or(&[]),
            number,
        },
    }
}

/// How many lines of the next level belong to the one on this level, where so many texts have a line each.
fn lines_below(level: usize, texts: usize) -> u32
    ensures { result ≡ if nat_lt level texts then 1 else 0 }
{
    if level < texts {
        return 1;
    }
    0
}
