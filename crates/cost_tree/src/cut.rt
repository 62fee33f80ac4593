//! Lists of numbers that are cut: each list's first numbers, as many as the lines of trees need.
//! Which costs a tree has, and what the numbers stand for, is no part of it.
ghost use Rattle.std.specs.Prelude.{◌≡◌, ◌≢◌, ◌^◌, ◌<◌, ◌≤◌, false, length, map, min, sum, true, IfOk, OnOk};
ghost use Rattle.cost_tree.specs.CutShapes.{IsCutOf, missing, next_count, raised, raised_counts};
ghost use Rattle.cost_tree.specs.Cuts.{AreEnoughFor, cut_lists};
ghost use Rattle.cost_tree.specs.GrowingLists.{LastGains};

use crate::chains::Chains;
use crate::room::CutRoom;
use crate::scale::Scale;
use crate::shape::Shape;
use hp_num::NoMemory;
use std::alloc::Global;
use std::mem;

/// The first numbers of lists.
#[derive(Drop)]
pub(crate) struct Cut {
    pub(crate) shape: Shape,
    /// How many numbers a list may have here.
    pub(crate) counts: Vec<usize>,
    /// How many it has in all.
    pub(crate) lengths: Vec<usize>,
}

impl Cut {
    /// The first number of each list, or `NoMemory`.
    pub(crate) fn of(alloc: Global, whole: &Chains) -> Result<Cut, NoMemory>
        ensures cut { IfOk result (λ cut. IsCutOf whole.now cut) }
    {
        let lengths = lengths_of(alloc, whole)?;
        let counts = vec![in alloc; 1; lengths.len()]?;
        let shape = cut_shape(alloc, whole, &counts)?;
        Ok(Cut {
            shape,
            counts,
            lengths,
        })
    }

    /// Makes the lists as long as lines need them, where they have these costs. On `NoMemory` they are cut somewhere.
    pub(crate) fn lengthen(
        &mut self,
        alloc: Global,
        whole: &Chains,
        costs: &[u64],
        scale: Scale,
        room: &mut CutRoom,
    ) -> Result<(), NoMemory>
        requires as_many { length costs.now ≡ length whole.now }
        requires bound { sum costs.now ≤ 2 ^ 62 }
        requires cut { IsCutOf whole.now self.old }
        ensures cut { IsCutOf whole.now self.new }
        ensures enough { OnOk result (AreEnoughFor scale whole.now costs.now self.new) }
    {
        'rounds: while self.lengthen_some(alloc, whole, costs, scale, room)? {}
        Ok(())
    }

    /// Makes the lists longer that cost enough for lines where they are cut, and answers whether there were any. On
    /// `NoMemory` they are as before.
    fn lengthen_some(
        &mut self,
        alloc: Global,
        whole: &Chains,
        costs: &[u64],
        scale: Scale,
        room: &mut CutRoom,
    ) -> Result<bool, NoMemory>
        requires as_many { length costs.now ≡ length whole.now }
        requires bound { sum costs.now ≤ 2 ^ 62 }
        requires cut { IsCutOf whole.now self.old }
        ensures cut { IsCutOf whole.now self.new }
        ensures less { IfOk result (λ some. some ≡ true → missing self.new < missing self.old) }
        ensures enough { IfOk result
            (λ some. some ≡ false → AreEnoughFor scale whole.now costs.now self.new) }
    {
        let CutRoom { ended, counts } = room;
        self.shape.ended_costs_into(costs, ended)?;
        if !is_some_raised(&self.counts, &self.lengths, &ended.of_lists, scale) {
            return Ok(false);
        }
        raised_counts_into(&self.counts, &self.lengths, &ended.of_lists, scale, counts)?;
        let shape = cut_shape(alloc, whole, counts)?;
        self.shape = shape;
        mem::swap(&mut self.counts, counts);
        Ok(true)
    }
}

/// How many numbers each list has, or `NoMemory`.
fn lengths_of(alloc: Global, whole: &Chains) -> Result<Vec<usize>, NoMemory>
    ensures lengths { IfOk result (λ lengths. lengths.items ≡ map length whole.now) }
{
    let mut lengths = Vec::with_capacity(alloc, whole.len() as usize)?;
    'each_list: for list in 0..whole.len() {
        lengths.push(whole.count(list))?;
    }
    Ok(lengths)
}

/// The first so many numbers of each list, or `NoMemory`.
fn cut_shape(alloc: Global, whole: &Chains, counts: &[usize]) -> Result<Shape, NoMemory>
    requires as_many { length counts.now ≡ length whole.now }
    ensures lists { IfOk result (λ shape. shape ≡ cut_lists counts.now whole.now) }
{
    let mut shape = Shape::new(alloc);
    let mut numbers = Vec::new(alloc);
    'each_list: for list in 0..whole.len() {
        whole.list_into(list, counts[list as usize], &mut numbers)?;
        shape.begin()?;
        push_numbers(&mut shape, &numbers)?;
    }
    Ok(shape)
}

/// Appends the numbers to the last list, of which there must be one.
fn push_numbers(shape: &mut Shape, numbers: &[usize]) -> Result<(), NoMemory>
    requires begun { 0 < length shape.old }
    ensures gained { OnOk result (LastGains shape.old numbers.now shape.new) }
    ensures count { length shape.new ≡ length shape.old }
{
    'each_number: for number in numbers {
        shape.push(*number)?;
    }
    Ok(())
}

/// Whether a list is to have more numbers, where those that end as each does cost so much together.
fn is_some_raised(counts: &[usize], lengths: &[usize], shared: &[u64], scale: Scale) -> bool
    requires lengths { length lengths.now ≡ length counts.now }
    requires shared { length shared.now ≡ length counts.now }
    ensures none { result ≡ false
        → raised_counts scale counts.now lengths.now shared.now ≡ counts.now }
    ensures some { result ≡ true
        → raised_counts scale counts.now lengths.now shared.now ≢ counts.now }
{
    'each_list: for list in 0..counts.len() {
        if raised(counts[list], lengths[list], shared[list], scale) != counts[list] {
            return true;
        }
    }
    false
}

/// Replaces `more` by how many numbers the lists are to have, where those that end as each does cost so much together.
fn raised_counts_into(
    counts: &[usize],
    lengths: &[usize],
    shared: &[u64],
    scale: Scale,
    more: &mut Vec<usize>,
) -> Result<(), NoMemory>
    requires lengths { length lengths.now ≡ length counts.now }
    requires shared { length shared.now ≡ length counts.now }
    ensures raised { OnOk result
        (more.new.items ≡ raised_counts scale counts.now lengths.now shared.now) }
{
    more.clear();
    more.reserve(counts.len())?;
    'each_list: for list in 0..counts.len() {
        more.push(raised(counts[list], lengths[list], shared[list], scale))?;
    }
    Ok(())
}

/// More, or all, where there are more and they cost enough for a line.
fn raised(count: usize, length: usize, cost: u64, scale: Scale) -> usize
    ensures { result ≡ raised scale count length cost }
{
    if count >= length || scale.is_small(cost) {
        return count;
    }
    next_count(count, length)
}

/// Two behind one, since lists that begin alike mostly differ in what comes second, and else four times as many, or all.
#[tactic(auto, unfolding(crate::specs::CutShapes::next_count))]
fn next_count(count: usize, length: usize) -> usize
    requires more { count < length }
    ensures { result ≡ min (next_count count) length }
{
    if count == 1 {
        return 2;
    }
    if count > length / 4 {
        return length;
    }
    4 * count
}
