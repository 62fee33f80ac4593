//! The live figures of a heap trace after each event: bytes, blocks, calls and temporary allocations. Lines of trace
//! files and the texts of reports are no part of it.
//!
//! `Ledger` stands for a list of events, each of a held info with its stack and size and none with a fault. What it
//! promises:
//!
//! - `apply` takes one more event or answers the fault that the definitions give it after that list, and then changes
//!   nothing; `check` answers the same and changes nothing. Neither takes memory. Stacks and infos may grow at any
//!   moment; one that grows later has no figures and changes none.
//! - `totals` gives the six figures of the list, `stack` the five of one stack, `info_calls` the allocations of one
//!   info, and `info` an info's size and stack.
//! - `changes` of `apply` says of each figure what one event does to it (`Changes`): the event's info and its stack
//!   alone change, and the totals with them.
//! - `sound` says what holds of every ledger (`IsSound`): each info's stack is held, the figures of all stacks sum to
//!   the totals, a stack that isn't held has none, and no figure passes its bound: live bytes are at most the allocated
//!   ones and those at most 2^62, events at most 2^32.
//! - `TotalsLedger` is the part of a ledger that has no figures of stacks, and has the same answers without it: what it
//!   stands for (`HasTotals`) is what a ledger stands for but for each stack's figures. `whole` lends it.
//! - `possible` of `check` says that the list with the event is one that a trace can have (`ArePossible`).
//! - Three laws are for the crates above: `sums_by_info` makes a sum over a trace's allocations a sum over the infos,
//!   by the ledger's counts; `possible_events` says that in a list that a trace can have no stack has more freed than
//!   allocated; `possible_weights` that no more is freed than allocated by any weight that an info gives its blocks.
//! - `Cells` is a list of numbers of which `set` alone changes one, and counts that as one step of a `Steps`. That
//!   counter takes no bytes: contracts see its count, and a program that counts nothing makes it from `Blank::new(1)`.
//!
//! | File | Does |
//! |---|---|
//! | `totals_ledger.rt` | the figures of a whole trace, and the blocks of each info |
//! | `ledger.rt` | the ledger: these, and the figures of each stack |
//! | `event.rt` | events, and the faults that an event has after those before it |
//! | `figures.rt`, `totals.rt` | the figures of a stack, and those of a trace |
//! | `sums.rt` | sums that only grow, from which the figures follow |
//! | `cells.rt`, `steps.rt` | numbers whose changes are counted, and the counter |
//! | `laws.rt` | the three laws |
//!
//! The tests of these calls are in the crate `ht_trace_tests`.
#![tactic(auto)]

mod cells;
mod event;
mod figures;
mod laws;
mod ledger;
mod steps;
mod sums;
mod totals;
mod totals_ledger;

pub use cells::Cells;
pub use event::{Event, EventFault};
pub use figures::Figures;
pub use laws::{possible_events, possible_weights, sums_by_info};
pub use ledger::Ledger;
pub use steps::Steps;
pub use totals::Totals;
pub use totals_ledger::TotalsLedger;
