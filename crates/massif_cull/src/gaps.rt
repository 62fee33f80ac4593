//! Keys of places in a tournament, which has the first of them at its top.
//! Which place has which key is the user's business.
ghost use Rattle.std.specs.Prelude.{◌≡◌, ℕ, ◌+◌, ◌/◌, ◌<◌, ◌≤◌, drop, length, map, slice_set, true, IfOk};
ghost use Rattle.massif_cull.specs.Keys.{AreFirsts, IsFirst, first_of, key_at, no_key, with_gap};

use hp_num::NoMemory;
use std::alloc::Global;
use std::marker::Model;

/// The gap of a place that isn't to be chosen. All others are below it.
pub(crate) const NEVER: u64 = 1 << 63;

/// By what a place is chosen: the least gap, and of equal gaps the least number.
#[derive(Clone, Copy)]
pub(crate) struct Key {
    pub gap: u64,
    pub number: u32,
    pub place: u32,
}

/// A key for each place below a set number, and which of them comes first. Contracts see the list of the keys, and whether
/// it is known which comes first.
#[derive(Drop)]
pub(crate) struct Gaps {
    max: u32,
    // From `max` on the keys. Where `ready`, node n before them has the one of nodes 2n and 2n + 1 that comes first.
    nodes: Vec<Key>,
    ready: bool,
}

impl Model for Gaps {
    ghost use Rattle.massif_cull.specs.Keys.{GapsState};
    ghost use Rattle.massif_cull.specs.Tournament.{gaps_of, IsTournament};

    ghost Value = { GapsState };

    ghost view = { gaps_of };

    ghost invariant = { IsTournament };
}

impl Gaps {
    /// Keys of so many places, at most 1000, none of which is to be chosen. No other call takes memory.
    pub fn new(alloc: Global, max: u32) -> Result<Gaps, NoMemory>
        requires { max ≤ 1000 }
        ensures { IfOk result (λ gaps. length gaps.keys ≡ max) }
    {
        let nodes = vec![in alloc; no_key(); max as usize * 2]?;
        Ok(Gaps {
            max,
            nodes,
            ready: false,
        })
    }

    /// Makes no place one to be chosen.
    pub fn clear(&mut self)
        ensures length { length self.new.keys ≡ length self.old.keys }
        ensures keys { (place : ℕ) → key_at self.new.keys place ≡ no_key }
    {
        clear_all(&mut self.nodes);
        self.ready = false;
    }

    /// Gives the place this key. It isn't known then which one comes first.
    pub fn put(&mut self, place: u32, key: Key)
        requires { place < length self.old.keys }
        ensures { self.new.keys ≡ slice_set self.old.keys place key }
    {
        self.nodes[self.max as usize + place as usize] = key;
        self.ready = false;
    }

    /// Finds out which key comes first.
    pub fn build(&mut self)
        ensures keys { self.new.keys ≡ self.old.keys }
        ensures ready { self.new.ready ≡ true }
    {
        build_all(&mut self.nodes, self.max as usize);
        self.ready = true;
    }

    /// Gives the key of the place this gap. It must be known which one comes first, and still is.
    pub fn set_gap(&mut self, place: u32, gap: u64)
        requires inside { place < length self.old.keys }
        requires ready { self.old.ready ≡ true }
        ensures keys { self.new.keys ≡ with_gap self.old.keys place gap }
        ensures ready { self.new.ready ≡ true }
    {
        let node = self.max as usize + place as usize;
        self.nodes[node] = Key {
            gap,
            ..self.nodes[node]
        };
        climb(&mut self.nodes, node);
    }

    /// The key that comes first. There must be a place, and it must be known.
    pub fn first(&self) -> Key
        requires some { 0 < length self.now.keys }
        requires ready { self.now.ready ≡ true }
        ensures { IsFirst self.now.keys result }
    {
        self.nodes[1]
    }
}

/// The key of a place that isn't to be chosen.
fn no_key() -> Key
    ensures { result ≡ no_key }
{
    Key {
        gap: NEVER,
        number: 0,
        place: 0,
    }
}

/// Makes each key one that isn't to be chosen.
fn clear_all(nodes: &mut Vec<Key>)
    ensures { nodes.new.items ≡ map (λ _. no_key) nodes.old.items }
{
    'nodes: for node in nodes.iter_mut() {
        *node = no_key();
    }
}

/// Gives each node above the keys, of which there are `max`, the one of the two below it that comes first.
fn build_all(nodes: &mut Vec<Key>, max: usize)
    requires size { length nodes.old.items ≡ max + max }
    requires most { max ≤ 1000 }
    ensures size { length nodes.new.items ≡ length nodes.old.items }
    ensures firsts { AreFirsts nodes.new.items 0 }
    ensures keys { drop max nodes.new.items ≡ drop max nodes.old.items }
{
    'nodes: for node in (1..max).rev() {
        nodes[node] = first_of(nodes[node + node], nodes[node + node + 1]);
    }
}

/// Gives the nodes above this one the keys that come first, up to one that has it already.
fn climb(nodes: &mut Vec<Key>, from: usize)
    requires size { length nodes.old.items ≤ 2000 }
    requires inside { from / 2 + from / 2 + 1 < length nodes.old.items }
    requires firsts { AreFirsts nodes.old.items (from / 2) }
    ensures size { length nodes.new.items ≡ length nodes.old.items }
    ensures firsts { AreFirsts nodes.new.items 0 }
    ensures keys { (max : ℕ) → from / 2 < max
        → drop max nodes.new.items ≡ drop max nodes.old.items }
{
    let mut node = from / 2;
    'up: while node > 0 {
        let key = first_of(nodes[node + node], nodes[node + node + 1]);
        if is_same(key, nodes[node]) {
            return;
        }
        nodes[node] = key;
        node /= 2;
    }
}

/// The one that comes first.
fn first_of(a: Key, b: Key) -> Key
    ensures { result ≡ first_of a b }
{
    if b.gap < a.gap {
        return b;
    }
    if a.gap < b.gap {
        return a;
    }
    if b.number < a.number { b } else { a }
}

/// Whether the two keys are the same.
fn is_same(a: Key, b: Key) -> bool
    ensures { result ≡ true → a ≡ b }
{
    if a.gap != b.gap {
        return false;
    }
    if a.number != b.number {
        return false;
    }
    a.place == b.place
}
