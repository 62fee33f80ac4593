//! Places in an order of their own, each linked to its neighbours. What stands at a place is the user's business.
ghost use Rattle.std.specs.Prelude.{◌≡◌, ◌+◌, ◌-◌, ◌<◌, ◌≤◌, [], ◌∷◌, ◌++◌, length, slice_get, slice_set, remove, Contains, IfOk, IfSome, Some, None, vec_capacity};
ghost use Rattle.massif_cull.specs.Linked.{AreBelow, AreDifferent, unless_end};
ghost use Rattle.massif_cull.specs.LinksState.{IsNext, IsPrevious, WhereIs};

use hp_num::NoMemory;
use std::alloc::Global;
use std::marker::Model;

/// A list of different places below a set number. A place that is unlinked may be given again; the others stay
/// what they are.
#[derive(Drop)]
pub struct Links {
    max: u32,
    // The place after each and the place before each, where `max` stands for both ends.
    next: Vec<u32>,
    prev: Vec<u32>,
    // The places that aren't in the list.
    free: Vec<u32>,
}

impl Model for Links {
    ghost use Rattle.massif_cull.specs.LinksState.{LinksState};
    ghost use Rattle.massif_cull.specs.Linked.{links_of, IsLinked};

    ghost Value = { LinksState };

    ghost view = { links_of };

    ghost invariant = { IsLinked };
}

impl Links {
    /// No place, of those below `max`, which is at most 1000. `NoMemory` where memory is wanting; no other call takes
    /// memory.
    pub fn new(alloc: Global, max: u32) -> Result<Links, NoMemory>
        requires { max ≤ 1000 }
        ensures max { IfOk result (λ links. links.max ≡ max) }
        ensures empty { IfOk result (λ links. links.places ≡ []) }
    {
        let ends = max as usize + 1;
        Ok(Links {
            max,
            next: vec![in alloc; max; ends]?,
            prev: vec![in alloc; max; ends]?,
            free: all_free(alloc, max)?,
        })
    }

    /// Appends a place that isn't in the list, and gives it. Fewer than `max` places must be in the list.
    pub fn push(&mut self) -> u32
        requires { length self.old.places < self.old.max }
        ensures max { self.new.max ≡ self.old.max }
        ensures appended { self.new.places ≡ self.old.places ++ result ∷ [] }
        ensures below { result < self.old.max }
        ensures different { AreDifferent self.new.places }
    {
        let end = self.max;
        let place = self.free.pop().unwrap();
        let last = self.prev[end as usize];
        link(&mut self.next, &mut self.prev, last, place);
        link(&mut self.next, &mut self.prev, place, end);
        place
    }

    /// Removes the place, which must be in the list. The others keep their order.
    pub fn unlink(&mut self, place: u32)
        requires { Contains self.old.places place }
        ensures max { self.new.max ≡ self.old.max }
        ensures removed { WhereIs self.old.places place
            (λ k. self.new.places ≡ remove self.old.places k) }
        ensures different { AreDifferent self.new.places }
    {
        let before = self.prev[place as usize];
        let after = self.next[place as usize];
        link(&mut self.next, &mut self.prev, before, after);
        self.free.push_reserved(place);
    }

    /// The first place, and None in the empty list.
    pub fn first(&self) -> Option<u32>
        ensures place { result ≡ slice_get self.now.places 0 }
        ensures below { IfSome result (λ place. place < self.now.max) }
    {
        unless_end(self.max, self.next[self.max as usize])
    }

    /// The last place, and None in the empty list.
    pub(crate) fn last(&self) -> Option<u32>
        ensures place { result ≡ slice_get self.now.places (length self.now.places - 1) }
        ensures below { IfSome result (λ place. place < self.now.max) }
    {
        unless_end(self.max, self.prev[self.max as usize])
    }

    /// The place after this one, which must be in the list, and None at the list's end.
    pub fn next(&self, place: u32) -> Option<u32>
        requires { Contains self.now.places place }
        ensures place { IsNext self.now.places place result }
        ensures below { IfSome result (λ next. next < self.now.max) }
    {
        unless_end(self.max, self.next[place as usize])
    }

    /// The place before this one, which must be in the list, and None at the list's front.
    pub fn prev(&self, place: u32) -> Option<u32>
        requires { Contains self.now.places place }
        ensures front { slice_get self.now.places 0 ≡ Some place → result ≡ None }
        ensures place { IsPrevious self.now.places place result }
        ensures below { IfSome result (λ prev. prev < self.now.max) }
    {
        unless_end(self.max, self.prev[place as usize])
    }

    /// The number that each place is below.
    pub(crate) fn max(&self) -> u32
        ensures { result ≡ self.now.max }
    {
        self.max
    }

    /// The number of places in the list.
    pub fn len(&self) -> u32
        ensures length { result ≡ length self.now.places }
        ensures most { result ≤ self.now.max }
        ensures different { AreDifferent self.now.places }
        ensures below { AreBelow self.now.max self.now.places }
    {
        self.max - self.free.len() as u32
    }
}

/// The place, unless it is the one that stands for both ends.
fn unless_end(end: u32, place: u32) -> Option<u32>
    ensures { result ≡ unless_end end place }
{
    if place == end { None } else { Some(place) }
}

/// Puts the two places side by side.
fn link(next: &mut Vec<u32>, prev: &mut Vec<u32>, before: u32, after: u32)
    requires before { before < length next.old.items }
    requires after { after < length prev.old.items }
    ensures next { next.new.items ≡ slice_set next.old.items before after }
    ensures prev { prev.new.items ≡ slice_set prev.old.items after before }
{
    next[before as usize] = after;
    prev[after as usize] = before;
}

/// All places below `max`, of which the last is the least.
fn all_free(alloc: Global, max: u32) -> Result<Vec<u32>, NoMemory>
    ensures length { IfOk result (λ free. length free.items ≡ max) }
    ensures different { IfOk result (λ free. AreDifferent free.items) }
    ensures below { IfOk result (λ free. AreBelow max free.items) }
    ensures room { IfOk result (λ free. max ≤ vec_capacity free) }
{
    let mut free = Vec::with_capacity(alloc, max as usize)?;
    'places: for place in (0..max).rev() {
        free.push_reserved(place);
    }
    Ok(free)
}
