//! Trees of inclusive costs: each front of some stacks' texts once, with what the stacks below it cost. Which figure is
//! a stack's cost, and what a tree is printed as, are the business of the callers.
//!
//! What it promises:
//!
//! - `Shape` and `Chains` are seen as lists of lists of numbers, and a shape keeps each front of them once; `Fronts` as a list of
//!   lists of texts, and keeps each distinct text once. Lists of texts can be made of names and a shape of their
//!   numbers (`from_parts`). `CallerLists` is seen as a list of lists of texts too, and keeps how they were told: with which
//!   earlier list each begins (`begin`), and which texts follow (`push`). `Costing` and `FrameTest` keep a closure, and what it
//!   is to answer is said at each call that uses it.
//! - `CostTree::of_fronts` gives the tree of the lists with their costs (`IsTreeOf`): one node for each front of at
//!   most `depth` texts whose cost isn't 0, and node 0 for the empty one.
//! - `CostTree::of_own` gives it with the texts of the lists for its own, and lets go all else of them; `CostTree::of_lists` for lists
//!   that are told, whose fronts it looks for only then. The lists of a trace's stacks are the business of `stack_trees`.
//! - `CutFronts` keeps lists cut behind fronts that have no line. `gather_small` lists what they cost without those whose first
//!   text is too small as a whole, and counts these (`Gathered`). `lengthen` makes the lists so long that the lines of `of_cut`'s
//!   tree are those of the whole lists, with these costs. Its lists are made of names and of lists of their numbers that go on with
//!   earlier ones (`from_parts`). It keeps the vectors that trees are made in, too, so that one tree after another takes memory
//!   anew only where it's larger (`take_room`, `into_room` and `put_room`).
//! - A node says its parent, which stands before it, its cost, its own cost and the first stack. `text` is its front's
//!   last text, and `children_into` gives all its children by ascending number, which is also by ascending first stack.
//! - `cost_lines` gives the lines of a tree above a threshold, as a list over fronts (`CostLines`): costly fronts first,
//!   and one line for the others of a node. `take_lines` gives them one by one to what takes them (`CostLineTaker`), and
//!   `take_both_lines` those of a tree and of what is gathered beside it.
//! - `take_front_lines` gives the same lines of lists with costs, without a tree that has a node for each: `ForkedFronts` keeps lists cut
//!   where they go on alone, and the lines behind that are made of their texts. `FrontLineTaker` takes the
//!   texts, and then each line with its front's last text and the number of that.
//! - `sums_of_fronts` is the law that a front costs what it costs itself and what the fronts cost that are one text longer.
//!
//! A text is compared with others once, when it is pushed, and a front once, when its last number is; a tree hashes nothing and
//! copies no text. The crates above may cite its `proofs/Laws`. The tests of these calls are the crate `cost_tree_tests`
//! and runs of `massif` in `commands_tests`.
//!
//! | File | Does |
//! |---|---|
//! | `shape.rt`, `edge.rt`, `edges.rt` | lists of numbers that share their fronts; how a node goes on from another, and those that do |
//! | `fronts.rt` | lists of texts |
//! | `caller_lists.rt`, `list_step.rt` | lists of texts as they are told, and one step of that |
//! | `chains.rt`, `chain.rt` | lists of numbers that go on with earlier ones; one of them |
//! | `cut_fronts.rt`, `cut.rt`, `ends.rt` | lists of texts that are cut, and of numbers; what lists cost together that end at one node |
//! | `small_texts.rt` | which first texts are too small as a whole, and what is left of the costs without them |
//! | `forked_fronts.rt`, `tails.rt` | lists of texts that are cut where they go on alone; the lines of their texts behind that |
//! | `costing.rt`, `frame_test.rt` | what each stack costs, and which names are meant, by closures |
//! | `branches.rt`, `summing.rt` | a tree that grows along a shape; what its nodes cost with those below them |
//! | `linked.rt`, `links.rt`, `child_nodes.rt` | its nodes with the links to their children; how many children a node has |
//! | `tree.rt`, `own_tree.rt`, `node.rt`, `held_names.rt` | the tree; that of lists that are let go; one node, and whose names it has |
//! | `room.rt` | the vectors that trees are made in, one after another |
//! | `scale.rt`, `line.rt`, `line_taker.rt` | what costs are measured by; a line; what takes lines |
//! | `children.rt`, `lines.rt` | which children of a node have lines of their own; the walk that gives the lines |
//! | `sum_law.rt` | that figures of fronts are sums |
//! | `shown_line.rt`, `front_line_taker.rt`, `front_lines.rt` | a line with what it shows; what takes such lines; those of lists |
#![tactic(auto)]

mod branches;
mod caller_lists;
mod chain;
mod chains;
mod child_nodes;
mod children;
mod costing;
mod cut;
mod cut_fronts;
mod edge;
mod edges;
mod ends;
mod forked_fronts;
mod frame_test;
mod front_line_taker;
mod front_lines;
mod fronts;
mod held_names;
mod line;
mod line_taker;
mod lines;
mod linked;
mod links;
mod list_step;
mod node;
mod own_tree;
mod room;
mod scale;
mod shape;
mod shown_line;
mod small_texts;
mod sum_law;
mod summing;
mod tails;
mod tree;

pub use caller_lists::CallerLists;
pub use chains::Chains;
pub use children::Gathered;
pub use costing::Costing;
pub use cut_fronts::CutFronts;
pub use forked_fronts::ForkedFronts;
pub use frame_test::FrameTest;
pub use front_line_taker::FrontLineTaker;
pub use front_lines::take_front_lines;
pub use fronts::Fronts;
pub use line::{CostLine, Place};
pub use line_taker::CostLineTaker;
pub use lines::{cost_lines, take_both_lines, take_lines};
pub use node::CostNode;
pub use room::TreeRoom;
pub use scale::Scale;
pub use shape::Shape;
pub use shown_line::{ShownLine, ShownPlace};
pub use sum_law::sums_of_fronts;
pub use tree::CostTree;
