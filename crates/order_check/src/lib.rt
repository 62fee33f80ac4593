//! The order check: whether a trace is a recording of given scripts. What the program says of the answer is no part of it.
//!
//! A recording is the trace of scripts whose turns were taken in some order (`recorded` of `record_book`). Lines with which
//! a recording begins, of any order under the scripts, are a front (`IsFront`); bytes are a recording where they are that
//! of the order that they spell, with all turns taken (`IsRecording`). What the crate promises:
//!
//! - `check_order` compares the current file of a store with the recordings of scripts: `Yes` exactly where it is one, else
//!   `No` with the first line up to which it begins as none does, or the faults of a reader of lines (`CheckAnswer`).
//! - `OrderCheck` takes the lines one at a time: `line` refuses exactly where the lines up to this one are no front
//!   (`TakesLine`), and `end` tells the number of events where all lines are a recording. Contracts say so by functions of the
//!   lines (`followed`, `is_front`, `whole_events`), which a caller's report can cite. No more is kept of the recording than one
//!   turn's lines (`KeepsOneTurn`).
//! - The law `front_laws` says what these functions mean (`FrontLaws`): `is_front` holds exactly of fronts, and `whole_events`
//!   tells exactly of recordings. It also says that a front is one of few orders: that which the lines spell, with at most two
//!   entries of one thread more (`BeginsAsSpelled`). The law `one_answer` says that a file has one answer, so that each comes
//!   exactly where what it says holds.
//!
//! Lines call for the turns: one that names a thread for that thread's next turn, any other for the next one of the thread
//! before. So each line tells what has to come, and what was compared is let go.
//!
//! The tests of these calls are in the crate `record_tests`.
//!
//! | File | Does |
//! |---|---|
//! | `check.rt` | the check of the current file of a store |
//! | `order_check.rt` | the check line by line |
//! | `verdict.rt` | the answers |
//! | `laws.rt` | the laws |
#![tactic(auto)]

mod check;
mod laws;
mod order_check;
mod verdict;

pub use check::check_order;
pub use laws::{front_laws, one_answer};
pub use order_check::OrderCheck;
pub use verdict::{CheckFault, CheckRefusal, Verdict};
