//! Stacks that were read lately, by the texts of their ips. What nodes are, is no part of it.
ghost use Rattle.std.specs.Prelude.{◌<◌, List, IfOk, IfSome, ◌≡◌};
ghost use Rattle.stack_table.specs.Node.{Node};
ghost use Rattle.record_scripts.specs.KnownText.{AreKnown, AreKnownSlots, Finds, IsKnownSlot, IsKnownText, Learns};

use hp_num::NoMemory;
use std::alloc::Global;

/// How many stacks are kept at most.
const SLOTS: usize = 4096;

/// The most bytes of a text that is kept.
const LONGEST_TEXT: usize = 1024;

/// The text of a stack, and its node. At first it is that of no ips.
#[derive(Drop)]
pub struct KnownStack {
    text: Vec<u8>,
    node: u32,
}

/// Stacks by their texts: of those whose texts share a slot, the one that was learned last.
#[derive(Drop)]
pub struct KnownStacks {
    slots: Vec<KnownStack>,
    alloc: Global,
}

impl KnownStacks {
    /// No stacks. It takes no memory.
    pub fn new(alloc: Global) -> KnownStacks
        ensures { (nodes : List Node) → AreKnown nodes result }
    {
        KnownStacks {
            slots: Vec::new(alloc),
            alloc,
        }
    }

    /// The node of the stack with this text, where it is kept.
    pub fn find(&self, text: &[u8]) -> Option<u32>
        ensures { IfSome result (Finds self.now text.now) }
    {
        let slot = slot_of(text);
        if slot >= self.slots.len() {
            return None;
        }
        let known = &self.slots[slot];
        if known.text.as_slice() != text {
            return None;
        }
        Some(known.node)
    }

    /// Keeps a stack with its text, where there is memory for it.
    pub fn learn(&mut self, text: &[u8], node: u32)
        ensures { Learns self.old self.new text.now node }
    {
        if text.len() > LONGEST_TEXT {
            return;
        }
        self.open();
        let slot = slot_of(text);
        if slot < self.slots.len() {
            self.slots[slot].take(text, node);
        }
    }

    /// Makes the slots, where there are none and there is memory for them.
    fn open(&mut self)
        ensures { (nodes : List Node) → AreKnown nodes self.old → AreKnown nodes self.new }
    {
        if !self.slots.is_empty() {
            return;
        }
        match empty_slots(self.alloc) {
            Ok(slots) => self.slots = slots,
            Err(_) => {}
        }
    }
}

impl KnownStack {
    /// Takes a stack with its text in the place of what it has, or that of no ips where memory is wanting.
    fn take(&mut self, text: &[u8], node: u32)
        ensures { (nodes : List Node) → IsKnownText nodes text.now node
            → IsKnownSlot nodes self.new }
    {
        self.text.clear();
        self.node = 0;
        match self.text.extend_from_slice(text) {
            Ok(()) => self.node = node,
            Err(_) => {}
        }
    }
}

/// Slots that have the stack of no ips.
fn empty_slots(alloc: Global) -> Result<Vec<KnownStack>, NoMemory>
    ensures { IfOk result (λ slots. (nodes : List Node) → AreKnownSlots nodes slots.items) }
{
    let mut slots = Vec::with_capacity(alloc, SLOTS)?;
    for _ in 0..SLOTS {
        slots.push(KnownStack {
            text: Vec::new(alloc),
            node: 0,
        })?;
    }
    Ok(slots)
}

/// The slot of a text: its bytes eight at a time, mixed.
fn slot_of(text: &[u8]) -> usize
    ensures { result < 4096 }
{
    let mut mixed = last_word(text);
    let mut rest = text;
    'words: while let Some((word, after)) = rest.split_first_chunk::<8>() {
        mixed = mix(mixed, u64::from_le_bytes(*word));
        rest = after;
    }
    (mixed % SLOTS as u64) as usize
}

/// The last eight bytes, or all of a shorter text.
fn last_word(text: &[u8]) -> u64 {
    match text.last_chunk::<8>() {
        Some(word) => u64::from_le_bytes(*word),
        None => {
            let mut word = 0;
            for byte in text {
                word = mix(word, u64::from(*byte));
            }
            word
        }
    }
}

/// One word more, so that each of its bits may change any bit of the result.
#[inline(always)]
fn mix(mixed: u64, word: u64) -> u64 {
    (mixed ^ word)
        .wrapping_mul(0x9e37_79b9_7f4a_7c15)
        .rotate_left(32)
}
