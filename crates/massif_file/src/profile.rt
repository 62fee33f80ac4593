//! What a Massif file says, as values. How it is spelled is the business of the writer and the reader.

use crate::lists::Snaps;
use crate::tree::Tree;
use hp_num::Text;

/// What the times of a profile count.
#[derive(Clone, Copy)]
pub enum TimeUnit {
    /// Instructions executed, `i` in the file.
    Instructions,
    /// Milliseconds, `ms` in the file.
    Milliseconds,
    /// Bytes allocated and freed, `B` in the file.
    Bytes,
    /// Events of a trace, `e` in the file. This unit is this project's own.
    Events,
}

/// Which tree a snapshot has: none, that of a detailed snapshot, or that of the peak.
#[derive(Clone, Copy)]
pub enum HeapTree {
    /// No tree, `empty` in the file.
    Empty,
    /// A tree, `detailed` in the file.
    Detailed,
    /// A tree of the snapshot with the greatest total, `peak` in the file.
    Peak,
}

/// What one line of a tree says: a place in the program, or several places that are gathered.
#[derive(Clone, Copy)]
pub struct TreeFields<'a> {
    /// How many lines of the next level belong to this one.
    pub children: u32,
    /// Heap bytes of the place.
    pub bytes: u64,
    /// The place, in words.
    pub label: &'a [u8],
}

/// The heap at one moment.
#[derive(Drop)]
pub struct Snap {
    /// The moment, in the profile's unit.
    pub time: u64,
    /// Bytes that the program asked for.
    pub heap: u64,
    /// Bytes that the heap's own administration takes beside them.
    pub extra: u64,
    /// Bytes of stacks.
    pub stacks: u64,
    /// Which tree follows.
    pub mark: HeapTree,
    /// The lines of the tree in the order of the file: each line stands before those of its children.
    /// Empty where the mark is `Empty`.
    pub tree: Tree,
}

/// A whole profile.
#[derive(Drop)]
pub struct Profile {
    /// How the profile was made.
    pub desc: Text,
    /// The command that was profiled.
    pub cmd: Text,
    /// What the times count.
    pub unit: TimeUnit,
    /// The snapshots, in the order of their times.
    pub snaps: Snaps,
}
