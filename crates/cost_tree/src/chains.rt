//! Lists of numbers, each of which may go on with an earlier one: it takes memory for its own numbers alone.
//! What the numbers stand for, and what the lists cost, are no part of it.
ghost use Rattle.std.specs.Prelude.{◌≡◌, ℕ, ◌+◌, ◌-◌, ◌^◌, ◌<◌, ◌≤◌, List, [], ◌∷◌, ◌++◌, length, min, take, IfSome, IfOk, OnOk, OnErr, slice_index_or};
ghost use Rattle.cost_tree.specs.ChainLists.{AddsFirst, AreChains, chain_lists, own_numbers};
ghost use Rattle.cost_tree.specs.Following.{following};

use crate::chain::Chain;
use hp_num::NoMemory;
use std::alloc::Global;
use std::marker::Model;

/// Lists of numbers, numbered from 0.
///
/// Contracts see the list of the lists.
#[derive(Drop)]
pub struct Chains {
    /// The own numbers of one list after the other.
    numbers: Vec<usize>,
    chains: Vec<Chain>,
}

impl Model for Chains {
    ghost use Rattle.std.specs.Prelude.{ℕ, List};
    ghost use Rattle.cost_tree.specs.ChainLists.{AreChains, chain_lists, own_numbers};

    ghost Value = { List (List ℕ) };

    ghost view = { λ lists. chain_lists lists.numbers.items lists.chains.items };

    ghost invariant = { λ lists.
        AreChains lists.numbers.items lists.chains.items
        (chain_lists lists.numbers.items lists.chains.items) };
}

impl Chains {
    /// No lists. It takes no memory; that of the lists to come is taken from `alloc`.
    pub fn new(alloc: Global) -> Chains
        ensures empty { result ≡ [] }
    {
        Chains {
            numbers: Vec::new(alloc),
            chains: Vec::new(alloc),
        }
    }

    /// Appends a list: these numbers, and then those of an earlier list, if any, but at most `most`. There must be fewer
    /// than 2^32 - 1 lists. On `NoMemory` the lists are as before.
    pub fn push(&mut self, own: &[usize], next: Option<u32>, most: usize) -> Result<(), NoMemory>
        requires earlier { IfSome next (λ list. list < length self.old) }
        requires few { length self.old < 2 ^ 32 - 1 }
        ensures appended { OnOk result
            (self.new ≡ self.old ++ take most (own.now ++ following self.old next) ∷ []) }
        ensures unchanged { OnErr result (self.new ≡ self.old) }
    {
        let count = at_most(most, own.len(), self.count_following(next));
        self.chains.reserve(1)?;
        let start = self.numbers.len();
        self.numbers.extend_from_slice(own)?;
        let end = self.numbers.len();
        self.chains.push_reserved(Chain {
            start,
            end,
            next,
            count,
        });
        Ok(())
    }

    /// Appends a list of these numbers. There must be fewer than 2^32 - 1 lists. On `NoMemory` the lists are as before.
    pub fn push_list(&mut self, numbers: &[usize]) -> Result<(), NoMemory>
        requires few { length self.old < 2 ^ 32 - 1 }
        ensures appended { OnOk result (self.new ≡ self.old ++ numbers.now ∷ []) }
        ensures unchanged { OnErr result (self.new ≡ self.old) }
    {
        self.push(numbers, None, numbers.len())
    }

    /// How many numbers the list has that another goes on with.
    fn count_following(&self, next: Option<u32>) -> usize
        requires earlier { IfSome next (λ list. list < length self.now) }
        ensures count { result ≡ length (following self.now next) }
    {
        match next {
            Some(list) => self.count(list),
            None => 0,
        }
    }

    /// How many numbers the list of this number has, in constant time. The list must be held.
    pub fn count(&self, list: u32) -> usize
        requires held { list < length self.now }
        ensures count { result ≡ length (slice_index_or self.now list []) }
    {
        self.chains[list as usize].count
    }

    /// Replaces `numbers` by the first ones of the list, which must be held: at most `most`. No more are read. On
    /// `NoMemory` it has some of them.
    pub fn list_into(
        &self,
        list: u32,
        most: usize,
        numbers: &mut Vec<usize>,
    ) -> Result<(), NoMemory>
        requires held { list < length self.now }
        ensures numbers { OnOk result
            (numbers.new.items ≡ take most (slice_index_or self.now list [])) }
    {
        numbers.clear();
        put_list(&self.numbers, &self.chains, list, most, numbers)
    }

    /// How many lists there are.
    pub fn len(&self) -> u32
        ensures count { result ≡ length self.now }
    {
        self.chains.len() as u32
    }
}

/// How many numbers there are together, or `most` where there are more.
fn at_most(most: usize, own: usize, more: usize) -> usize
    ensures { result ≡ min most (own + more) }
{
    let first = own.min(most);
    first + more.min(most - first)
}

/// Appends the first numbers of a list, at most `most`: those of its own, and of each list that it goes on with.
fn put_list(
    own: &[usize],
    chains: &[Chain],
    list: u32,
    most: usize,
    numbers: &mut Vec<usize>,
) -> Result<(), NoMemory>
    requires chains { AreChains own.now chains.now (chain_lists own.now chains.now) }
    requires held { list < length chains.now }
    ensures appended { OnOk result
        (AddsFirst own.now chains.now list most numbers.old.items numbers.new.items) }
{
    let mut next = Some(list);
    let mut left = most;
    'each_chain: while left > 0 {
        let Some(place) = next else {
            return Ok(());
        };
        let chain = &chains[place as usize];
        left = put_first(own_of(own, chain), left.min(chain.count), numbers)?;
        next = chain.next;
    }
    Ok(())
}

/// The list's own numbers.
fn own_of<'a>(own: &'a [usize], chain: &Chain) -> &'a [usize]
    requires ordered { chain.now.start ≤ chain.now.end }
    requires within { chain.now.end ≤ length own.now }
    ensures { result.now ≡ own_numbers own.now chain.now }
{
    &own[chain.start..chain.end]
}

/// Appends the first of a list's own numbers, at most `most`, and answers how many more there may be.
fn put_first(own: &[usize], most: usize, numbers: &mut Vec<usize>) -> Result<usize, NoMemory>
    ensures appended { OnOk result
        (numbers.new.items ≡ numbers.old.items ++ take most own.now) }
    ensures left { IfOk result (λ left. left ≡ most - length own.now) }
{
    let first = &own[..own.len().min(most)];
    numbers.extend_from_slice(first)?;
    Ok(most - first.len())
}
