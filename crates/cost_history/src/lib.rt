//! What each stack had live at the moments of kept snapshots, as one list of changes. A place is a number of events; which
//! places are kept is the caller's part.
//!
//! What it promises: what a stack costs at a place is what the last change up to there says, and 0 where none does
//! (`cost_at`), whatever places were kept and dropped between.
//!
//! - `mark` says that a stack's cost has changed, in constant time and without memory; of a stack for which `make_room`
//!   made no room, it marks all. `keep` keeps a place: it appends at most a change for each marked stack, and takes the
//!   marks off.
//! - `thin` takes out, in one pass and without memory, all that no kept place sees: of two changes of a stack that are
//!   left, a kept place stands between (`AreParted`). `is_crowded` says when it is worth its while (`IsRoomy`).
//! - `into_replay` gives the costs of all stacks at one place after another, without memory.
#![tactic(auto)]

mod change;
mod history;
mod marks;
mod replay;
mod thinning;

pub use change::Change;
pub use history::CostHistory;
pub use replay::Replay;
