//! The lists of texts of a trace's stacks, and the tree over them. Which figure is a stack's cost, and which frames are a
//! stack's own, are the business of the callers; what a tree is, and what it says, `cost_tree`'s.
//!
//! What it promises:
//!
//! - `CostTree::build` gives the tree of the stacks of a trace with their costs (`IsTreeOf`), by the trait `OfStacks`. Its lists are the texts of
//!   their frames in a style and from one end (`lists_towards`). From the root it makes the texts of each node once, and its memory goes by
//!   nodes. From the allocation it makes no text of a stack that costs nothing, and of each other stack one text more than `depth`
//!   at most. `lists_from_root` and `CostTree::of_lists` are its two steps from the root, for a caller that lets go the tables
//!   between them: the first one tells the lists (`CallerLists`), and the second one looks for their fronts.
//! - `CallChains` is seen as a list of lists of texts, and keeps of each the texts of a stack's own frames, and which
//!   earlier list follows them (`push`). `into_cut` gives the same lists, cut for the lines of trees (`CutFronts`).
//!
//! The tests of these calls are in the crate `cost_tree_tests`, and runs of `massif` in `commands_tests`.
//!
//! | File | Does |
//! |---|---|
//! | `call_chains.rt`, `list_form.rt` | lists of the texts of frames that go on with earlier ones; in which form |
//! | `stack_lists.rt`, `root_lists.rt` | the lists of a trace's stacks from the allocation, and from the root |
//! | `trace_lists.rt`, `direction.rt` | those that a tree needs; from which end |
//! | `tree.rt` | the tree of a trace's stacks |
#![tactic(auto)]

mod call_chains;
mod direction;
mod list_form;
mod root_lists;
mod stack_lists;
mod trace_lists;
mod tree;

pub use call_chains::CallChains;
pub use direction::Direction;
pub use list_form::ListForm;
pub use root_lists::lists_from_root;
pub use tree::OfStacks;
