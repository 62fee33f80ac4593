//! The tree of a snapshot in Massif's output file: what stacks cost below each front of their frames, line by line.
//! When a snapshot is taken, and what a stack costs, are the business of the callers.
//!
//! What it promises, for every list of names and of costs that the closures state:
//!
//! - `is_ignored` says whether a stack is ignored: behind its front of allocation functions (`trimmed`), its first
//!   frame has a function that is to be ignored.
//! - `forked_lines` gives the lines of a tree of whole lists of texts (`ForkedFronts`): a line for each front whose share of the
//!   snapshot's total reaches the threshold, the costly ones first, and one for the others together (`massif_tree`). Each is made
//!   of one line of `cost_tree`. A label is kept once that many lines have.
//! - `add_trimmed` makes the lists of a trace's stacks as they are trimmed, once for each stack and of at most one text more
//!   than a tree is deep, and `snapshot_tree` gives the lines of the tree of such lists: stacks whose innermost text is too small
//!   as a whole are only counted. A stack's list goes on with that of the stack that it is called from, so texts are made once a
//!   node.
//! - The law `massif_trees` says that such lines may stand in a profile: counts and levels are right to a depth of 256
//!   (`right`), the first line has the sum of all costs (`root`), and numbers and labels may be written (`writable`),
//!   as the texts of a trace may whose strings have no line feed (`texts`).
//!
//! The crates above may cite its `proofs/Laws`: stacks that cost nothing, behind others, change no tree. The tests of these calls
//! are runs of `massif` in the crate `commands_tests`.
//!
//! | File | Does |
//! |---|---|
//! | `function_lists.rt` | what allocation functions leave of a stack, and which stacks are ignored |
//! | `trimmed_fronts.rt`, `snapshot.rt` | the trimmed lists of a trace's stacks; the tree of such lists |
//! | `labels.rt`, `lines.rt` | the labels that name no frame; the lines of a tree |
//! | `forked_tree.rt` | the lines of the tree of whole lists |
//! | `options.rt` | what is asked of a tree |
//! | `tree_laws.rt` | the law |
#![tactic(auto)]

mod forked_tree;
mod function_lists;
mod labels;
mod lines;
mod options;
mod snapshot;
mod tree_laws;
mod trimmed_fronts;

pub use forked_tree::forked_lines;
pub use function_lists::is_ignored;
pub use options::TreeOptions;
pub use snapshot::snapshot_tree;
pub use tree_laws::massif_trees;
pub use trimmed_fronts::add_trimmed;
