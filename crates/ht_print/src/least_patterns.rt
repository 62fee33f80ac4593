//! Whether a text has one of some patterns in it, by the texts that begin at its places: of patterns in order, none of which
//! begins with another, the text at a place can begin only with the last that isn't behind it. So time goes by the text.
ghost use Rattle.std.specs.Prelude.{◌≡◌, ◌-◌, ◌<◌, ◌^◌, [], length, map, IfOk, slice_index_or};
ghost use Rattle.std.specs.List.Sorted.{IsSorted};
ghost use Rattle.std.specs.Ordering.{nat_cmp};
ghost use Rattle.std.specs.Cmp.Lexicographic.{slice_cmp};
ghost use Rattle.ht_print.specs.LeastPatterns.{AreApart, BeginSame, begins_any, begins_last};
ghost use Rattle.ht_print.specs.MetPatterns.{AreLeastOf, TellsMet};

use hp_num::NoMemory;
use ht_trace::Tables;
use std::alloc::Global;

/// The patterns of a trace, in ascending order and without those that begin with another: a text that has one of these has
/// that other one as well.
#[derive(Drop)]
pub(crate) struct LeastPatterns<'t> {
    pub(crate) patterns: Vec<&'t [u8]>,
}

impl<'t> LeastPatterns<'t> {
    /// Those of the patterns of the tables, or `NoMemory`.
    pub(crate) fn of(alloc: Global, tables: &'t Tables) -> Result<LeastPatterns<'t>, NoMemory>
        ensures { IfOk result (λ least. AreLeastOf tables.now.patterns least) }
    {
        let mut all = all_patterns(alloc, tables)?;
        all.sort_unstable();
        let patterns = without_longer(alloc, &all)?;
        Ok(LeastPatterns { patterns })
    }

    /// Whether one of the patterns stands in the text as consecutive bytes.
    pub(crate) fn stand_in(&self, text: &[u8]) -> bool
        requires apart { AreApart (λ pattern. pattern.now) self.now.patterns.items }
        ensures { TellsMet self.now text.now result }
    {
        'each_place: for from in 0..text.len() + 1 {
            if begins_with_one(&self.patterns, &text[from..]) {
                return true;
            }
        }
        false
    }
}

/// The patterns of the tables in their order, or `NoMemory`.
fn all_patterns(alloc: Global, tables: &Tables) -> Result<Vec<&[u8]>, NoMemory>
    ensures { IfOk result (λ all. map (λ pattern. pattern.now) all.items ≡ tables.now.patterns) }
{
    let mut all = Vec::with_capacity(alloc, tables.suppressions() as usize)?;
    'each_pattern: for place in 0..tables.suppressions() {
        all.push(pattern(tables, place))?;
    }
    Ok(all)
}

fn pattern(tables: &Tables, place: u32) -> &[u8]
    requires held { place < length tables.now.patterns }
    requires few { place < 2 ^ 32 - 1 }
    ensures { result.now ≡ slice_index_or tables.now.patterns place [] }
{
    match tables.suppression(place + 1) {
        Some(pattern) => pattern,
        None => unreachable!(),
    }
}

/// The patterns, which are in order, without those that begin with an earlier one, or `NoMemory`.
fn without_longer<'t>(alloc: Global, all: &[&'t [u8]]) -> Result<Vec<&'t [u8]>, NoMemory>
    requires sorted { IsSorted (λ one other. slice_cmp nat_cmp one.now other.now) all.now }
    ensures apart { IfOk result (λ least. AreApart (λ pattern. pattern.now) least.items) }
    ensures same { IfOk result (λ least. BeginSame (λ pattern. pattern.now) least.items all.now) }
{
    let mut least = Vec::new(alloc);
    'each_pattern: for pattern in all {
        if !begins_with_last(&least, *pattern) {
            least.push(*pattern)?;
        }
    }
    Ok(least)
}

/// Whether the pattern begins with the last of the others.
fn begins_with_last(least: &[&[u8]], pattern: &[u8]) -> bool
    ensures { result ≡ begins_last (λ last. last.now) least.now pattern.now }
{
    match least.last() {
        Some(last) => pattern.starts_with(*last),
        None => false,
    }
}

fn begins_with_one(patterns: &[&[u8]], text: &[u8]) -> bool
    requires apart { AreApart (λ pattern. pattern.now) patterns.now }
    ensures { result ≡ begins_any (λ pattern. pattern.now) patterns.now text.now }
{
    let Err(place) = patterns.binary_search(&text) else {
        return true;
    };
    if place == 0 {
        return false;
    }
    text.starts_with(patterns[place - 1])
}
