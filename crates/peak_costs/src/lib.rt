//! The peak of a heap trace and each stack's share in it, kept up event by event. The live figures are the ledger's
//! part, and the texts of reports are no part of it.
//!
//! `Peaks` keeps a ledger, and stands for the events that the ledger stands for. What it promises:
//!
//! - `peak_moment` is the least number of events after which the total is greatest, `peak_total` that total, and
//!   `peak_of` and `peak_blocks_of` what a stack has live then.
//! - `apply`, `grow_stack` and `grow_info` have the ledger's conditions and answers.
//! - An event costs at most six changes of cells, which `Steps` counts, at a new peak as well: nothing is copied.
//! - `sound` says that the shares of all stacks sum to the total, so each is within it.
//!
//! `PeakTotals` keeps the totals with their peak alone, and no figure of a stack: its ledger is a `TotalsLedger`, and its peak is told
//! as that of `Peaks` is.
//!
//! The crates above may cite its `proofs/Laws`: the greatest of some numbers, and the first place at which it stands. The tests of
//! these calls are in the crate `ht_trace_tests`; one here, in `peaks/fields.rt`, takes the peaks apart, since their fields are
//! private: what a stack has has no place but the ledger and the three lists of cells.
#![tactic(auto)]

mod mark;
mod peak_totals;
mod peaks;
mod save;

pub use mark::Mark;
pub use peak_totals::PeakTotals;
pub use peaks::Peaks;
