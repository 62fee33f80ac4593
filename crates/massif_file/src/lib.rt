//! Massif's output file: its profile as values, written as text, and read again line by line. Taking snapshots of a
//! trace and printing pages of a profile are the work of the crates above.
//!
//! What it promises:
//!
//! - `ProfileReader` stands for the lines that it was given. `line` takes one more, or answers the fault of the first
//!   line that can't follow those before it, and then that fault again; `finish` answers the profile of the lines, or
//!   `Truncated`, and `profile` lends what `finish` would answer.
//! - `put_profile` appends a profile's text.
//! - `ProfileFault::text` says what a fault is called.
//! - The laws: `massif_profiles` says that any lines are one profile or have one first fault, and `massif_round_trip`
//!   that a writable profile's text reads as that profile, and that every profile that was read is writable.
//!
//! The tests of these calls are in the crate `profile_tests`, and those of single lines are runs of `ms_print` and `convert` in
//! `commands_tests`.
//!
//! | File | Does |
//! |---|---|
//! | `profile.rt`, `lists.rt` | what a file says, as values; its snapshots |
//! | `tree.rt`, `labelled_tree.rt`, `labels.rt` | the lines of a tree; with labels by numbers; their labels |
//! | `reader.rt`, `reading.rt` | the reader; one short step for each line that may come next |
//! | `line.rt`, `levels.rt` | what single lines say; how many lines of a tree are still to come |
//! | `writer.rt` | a profile as text |
//! | `fault.rt` | why lines are refused, and what that is called |
//! | `laws.rt` | the two laws |
#![tactic(auto)]

mod fault;
mod labelled_tree;
mod labels;
mod laws;
mod levels;
mod line;
mod lists;
mod profile;
mod reader;
mod reading;
mod tree;
mod writer;

pub use fault::ProfileFault;
pub use labelled_tree::LabelledTree;
pub use laws::{massif_profiles, massif_round_trip};
pub use lists::Snaps;
pub use profile::{HeapTree, Profile, Snap, TimeUnit, TreeFields};
pub use reader::ProfileReader;
pub use tree::Tree;
pub use writer::put_profile;
