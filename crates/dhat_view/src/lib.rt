//! A DHAT profile as a tree on a terminal: what its points cost below each front of their frames. How a profile is read
//! is `dhat_json`'s part, and how a tree of costs is built `cost_tree`'s.
//!
//! What it promises: `fronts_of` gives for each point of a profile the shown texts of its frames (`point_fronts`), and
//! `shown_table` the shown texts of a table under numbers (`AreNumbers`), each different one kept once.
//! `put_view` appends the view of a profile (`view_text`): its head, and the tree of these lists with the points'
//! figures of a key as costs, a line for each line of `cost_tree` but the first. `HasViewSums` says what these lines are:
//! of a front the sum of the points that begin with it, of gathered places their sum and number. `view_fault` says why a
//! profile has no view: its points have no figures of the key, or these sum to more than 2^62. Both come exactly then
//! (`refused`), take no memory, and leave the vector as it was, as `NoMemory` does. `ViewParts` are what a view shows of a
//! profile (`ArePartsOf`), so that the profile may be let go between `of`, which reads them, and `put`, which appends the same view.
//! The tests of these calls are runs of `dhat_view` in the crate `commands_tests`.
//!
//! | File | Does |
//! |---|---|
//! | `view.rt`, `parts.rt` | the view of a profile, and of what was read of one; what is read, and the view's head |
//! | `fronts.rt`, `texts.rt` | the points' frames as lists of texts; shown texts under numbers |
//! | `sums.rt` | what the points cost together |
//! | `tree.rt`, `lines.rt` | the lines of the tree; one line |
//! | `options.rt`, `fault.rt` | what is asked; why a profile has no view |
#![tactic(auto)]

mod fault;
mod fronts;
mod lines;
mod options;
mod parts;
mod sums;
mod texts;
mod tree;
mod view;

pub use fault::ViewFault;
pub use fronts::fronts_of;
pub use options::ViewOptions;
pub use parts::ViewParts;
pub use sums::{figure_at, figures_sum};
pub use texts::{ShownTexts, shown_table};
pub use view::put_view;
