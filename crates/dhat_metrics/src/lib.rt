//! The lifetimes of a heap trace's blocks, stack by stack, as DHAT counts them, and the most that each stack had live.
//! Where the total was greatest is no part of it, and neither is the profile that is written.
//!
//! `Lifetimes` stands for a list of events, as a ledger does, and gives seven figures of each stack: its allocations in
//! bytes and blocks, how long its blocks lived all together, the most bytes that it had live with the blocks of that
//! moment, and what it has live at the end. What it promises:
//!
//! - `apply` takes an event in constant time and without memory. It needs a list of events that a trace can have, which
//!   the ledger's `check` tells (`possible`), and has no fault of its own.
//! - `changes` says what an event does to each stack: every block that was live has lived one event more.
//! - `sound` says the figures' order and bounds: lifetimes stay below 2^63.
//!
//! The tests of these calls are runs of `dhat` in the crate `commands_tests`.
#![tactic(auto)]

mod figures;
mod life;
mod lifetimes;

pub use figures::LifeFigures;
pub use lifetimes::Lifetimes;
