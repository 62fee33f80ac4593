//! First texts of lists that are too small for a line as a whole: what lists cost that begin with them is only counted.
//! Which texts the numbers stand for is no part of it.
ghost use Rattle.std.specs.Prelude.{◌≡◌, ◌+◌, ◌-◌, ◌^◌, ◌<◌, ◌≤◌, ◌&&◌, All, if◌then◌else◌, length, map, nat_lt, sum, IfOk};
ghost use Rattle.cost_tree.specs.CostLines.{is_small};
ghost use Rattle.cost_tree.specs.CutShapes.{AreEndedCosts};
ghost use Rattle.cost_tree.specs.SmallCosts.{TakesSmall, first_number, with_list};

use crate::chains::Chains;
use crate::children::Gathered;
use crate::scale::Scale;
use hp_num::NoMemory;
use std::alloc::Global;

/// The first number of each list, and 0 where it has none, or `NoMemory`.
pub(crate) fn first_numbers(alloc: Global, lists: &Chains) -> Result<Vec<usize>, NoMemory>
    ensures firsts { IfOk result (λ firsts. firsts.items ≡ map first_number lists.now) }
{
    let mut firsts = Vec::with_capacity(alloc, lists.len() as usize)?;
    let mut numbers = Vec::new(alloc);
    'each_list: for list in 0..lists.len() {
        lists.list_into(list, 1, &mut numbers)?;
        firsts.push(first_number(&numbers))?;
    }
    Ok(firsts)
}

/// The first of the numbers, and 0 where there is none.
#[tactic(auto, unfolding(crate::specs::SmallCosts::first_number))]
fn first_number(numbers: &[usize]) -> usize
    ensures { result ≡ first_number numbers.now }
{
    match numbers.first() {
        Some(number) => *number,
        None => 0,
    }
}

/// Takes what lists cost out of the costs where their first number is too small by the sums, which say what lists cost together
/// that begin with each, and answers how many such numbers there are that cost something, and what they cost. The sums are of no
/// use then.
pub(crate) fn take_small(
    firsts: &[usize],
    scale: Scale,
    sums: &mut [u64],
    costs: &mut [u64],
) -> Gathered
    requires held { All (λ first. first < length sums.old) firsts.now }
    requires as_many { length costs.old ≡ length firsts.now }
    requires bound { sum costs.old ≤ 2 ^ 62 }
    requires sums { AreEndedCosts firsts.now costs.old (length sums.old) sums.old }
    ensures { TakesSmall scale firsts.now costs.old costs.new result }
{
    let mut gathered = Gathered { places: 0, cost: 0 };
    'each_list: for list in 0..firsts.len() {
        let first = firsts[list];
        let cost = costs[list];
        let shared = sums[first];
        if is_left_out(first, cost, shared, scale) {
            gathered = with_list(gathered, cost, shared);
            costs[list] = 0;
            // Says that the number is counted.
            sums[first] = 0;
        }
    }
    gathered
}

/// Whether a list that costs something begins with a number that is too small, where lists cost so much together that do so.
fn is_left_out(first: usize, cost: u64, shared: u64, scale: Scale) -> bool
    ensures { result ≡ (nat_lt 0 first && nat_lt 0 cost && is_small scale shared) }
{
    first > 0 && cost > 0 && scale.is_small(shared)
}

/// The same with the cost of a list, and with its first number where this costs something.
fn with_list(gathered: Gathered, cost: u64, shared: u64) -> Gathered
    requires places { gathered.places < 2 ^ 64 - 1 }
    requires cost { gathered.cost + cost < 2 ^ 64 }
    ensures { result ≡ with_list gathered cost shared }
{
    Gathered {
        places: gathered.places + u64::from(shared > 0),
        cost: gathered.cost + cost,
    }
}
