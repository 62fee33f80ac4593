//! The places of the frames of stacks, in a list for each stack. A list may go on with that of another stack, and takes memory
//! for its own first places alone.
ghost use Rattle.std.specs.Prelude.{◌≡◌, ◌<◌, List, [], ◌∷◌, ◌++◌, All, IfOk, IfSome, OnErr, OnOk, length, set, slice_index_or};
ghost use Rattle.cost_tree.specs.Following.{following};
ghost use Rattle.dhat_trace.specs.ListNumbers.{GoesOn, numbers_of};

use cost_tree::Chains;
use hp_num::NoMemory;
use std::alloc::Global;
use std::marker::Model;

/// How many places a list has at most that is copied where another one goes on with it. Lists of few places stand in one
/// piece so, which is read at once.
const FEW: usize = 64;

/// For each stack the places of its frames, none before they are set.
///
/// Contracts see it as the list of these lists.
#[derive(Drop)]
pub(crate) struct PlaceLists {
    /// The lists, the first of which is empty.
    lists: Chains,
    /// The number of each stack's list.
    numbers: Vec<u32>,
}

impl Model for PlaceLists {
    ghost use Rattle.std.specs.Prelude.{ℕ, List};
    ghost use Rattle.dhat_trace.specs.ListNumbers.{AreNumbers, lists_under};

    ghost Value = { List (List ℕ) };

    ghost view = { λ told. lists_under told.lists told.numbers.items };

    ghost invariant = { λ told. AreNumbers told.lists told.numbers.items };
}

impl PlaceLists {
    /// So many stacks, of none of which the places are known, or `NoMemory`.
    pub(crate) fn new(alloc: Global, count: usize) -> Result<PlaceLists, NoMemory>
        ensures count { IfOk result (λ told. length told ≡ count) }
        ensures empty { IfOk result (λ told. All (λ places. places ≡ []) told) }
    {
        Ok(PlaceLists {
            lists: empty_list(alloc)?,
            numbers: vec![in alloc; 0; count]?,
        })
    }

    /// How many places are known of the stack's frames.
    pub(crate) fn count(&self, stack: usize) -> usize
        requires held { stack < length self.now }
        ensures count { result ≡ length (slice_index_or self.now stack []) }
    {
        self.lists.count(self.numbers[stack])
    }

    /// Replaces `places` by those of the stack's frames. On `NoMemory` it has some of them.
    pub(crate) fn places_into(&self, stack: usize, places: &mut Vec<usize>) -> Result<(), NoMemory>
        requires held { stack < length self.now }
        ensures places { OnOk result (places.new.items ≡ slice_index_or self.now stack []) }
    {
        let list = self.numbers[stack];
        self.lists.list_into(list, self.lists.count(list), places)
    }

    /// Goes on behind these places with those of the stack's frames: appends them where they are few, and answers the stack
    /// where they aren't, for a list to go on with its list. `buffer` is overwritten.
    pub(crate) fn go_on(
        &self,
        stack: u32,
        buffer: &mut Vec<usize>,
        places: &mut Vec<usize>,
    ) -> Result<Option<u32>, NoMemory>
        requires held { stack < length self.now }
        ensures next { IfOk result (λ next. IfSome next (λ other. other < length self.now)) }
        ensures whole { IfOk result (GoesOn self.now stack places.old.items places.new.items) }
    {
        if self.count(stack as usize) > FEW {
            return Ok(Some(stack));
        }
        self.places_into(stack as usize, buffer)?;
        places.extend_from_slice(buffer)?;
        Ok(None)
    }

    /// Sets the places of a stack's frames: its own first ones, and then those of another stack, if any. On `NoMemory` this
    /// is as before.
    pub(crate) fn set(
        &mut self,
        stack: usize,
        own: &[usize],
        next: Option<u32>,
    ) -> Result<(), NoMemory>
        requires held { stack < length self.old }
        requires next { IfSome next (λ other. other < length self.old) }
        ensures { OnOk result
            (self.new ≡ set self.old stack (own.now ++ following self.old next)) }
    {
        let next = number_of(&self.numbers, next);
        let number = self.lists.len();
        push_whole(&mut self.lists, own, next)?;
        self.numbers[stack] = number;
        Ok(())
    }
}

fn empty_list(alloc: Global) -> Result<Chains, NoMemory>
    ensures { IfOk result (λ lists. lists ≡ [] ∷ []) }
{
    let mut lists = Chains::new(alloc);
    lists.push_list(&[])?;
    Ok(lists)
}

/// The number of the stack's list, if any.
fn number_of(numbers: &[u32], stack: Option<u32>) -> Option<u32>
    requires held { IfSome stack (λ other. other < length numbers.now) }
    ensures { result ≡ numbers_of numbers.now stack }
{
    match stack {
        Some(other) => Some(numbers[other as usize]),
        None => None,
    }
}

/// Appends a list: these places, and then those of an earlier list, if any. On `NoMemory` the lists are as before.
fn push_whole(lists: &mut Chains, own: &[usize], next: Option<u32>) -> Result<(), NoMemory>
    requires earlier { IfSome next (λ list. list < length lists.old) }
    ensures appended { OnOk result
        (lists.new ≡ lists.old ++ (own.now ++ following lists.old next) ∷ []) }
    ensures unchanged { OnErr result (lists.new ≡ lists.old) }
{
    // As many lists as can be numbered take more memory than a machine has.
    if lists.len() == u32::MAX {
        return Err(NoMemory);
    }
    // No list of more places than can be counted could be read.
    match own.len().checked_add(count_following(lists, next)) {
        Some(count) => lists.push(own, next, count),
        None => Err(NoMemory),
    }
}

/// How many places the list has that another goes on with.
fn count_following(lists: &Chains, next: Option<u32>) -> usize
    requires earlier { IfSome next (λ list. list < length lists.now) }
    ensures count { result ≡ length (following lists.now next) }
{
    match next {
        Some(list) => lists.count(list),
        None => 0,
    }
}
