//! Recording by threads: a recording behind a lock, and a worker for each script, which takes its turns in holds of the
//! lock. What is recorded, and how it is written, is no part of it. It is the one library that starts threads and
//! waits.
//!
//! `Recorder` is a lock around a `Book`: `new` makes it, and `close` takes the book out again. `run_workers` runs a
//! worker for each number below `threads`, in a tree of joins, and returns when all have ended. A worker calls its
//! `Gate` without the lock, takes the lock for one hold, and goes on until a hold took fewer than 64 turns.
//! `record_job` is the whole: a book of the scripts, the workers, `close` and `finish`.
//!
//! Proved is:
//!
//! - The book keeps what its type says, so it holds whenever the lock is free: the order is one under the scripts, the
//!   bytes are its trace, and no two live blocks overlap. `close` says so of the book that it gives.
//! - One hold is at most 64 turns of one thread (`IsHold`, of the private call `take_turns`).
//! - Want of memory of any worker is told: that workers have ended well is told by their last holds alone (`Ended`), and the
//!   tree of joins puts together what its halves tell (`HaveEnded`, of the private call `run_between`).
//! - What `record_job` answers is a book of the scripts that were handed in, whose order is an interleaving of them,
//!   whatever the workers did: `finish` takes what they left.
//!
//! No clause says what is under a lock, so none says which scripts the book has: a worker tests it under the lock, and
//! `finish` compares them. Nor does a clause say when a worker ends, that the workers take any turn, that one of them
//! is ever served, or that two run beside each other. Tests show, with one to eight scripts, that each has a worker, that
//! they have all ended when `run_workers` returns, that they leave no turn to `finish`, and that they meet: with a gate
//! that keeps each worker from its second hold until all have come to theirs, the first 64 turns of each stand before the
//! 65th of any. Where some workers take the turns of others, or run one after another, they never meet, and that test
//! fails. Where no worker has run, the book that `close` gives has no turn.
//!
//! The tests of these calls are in the crate `record_tests`. `gate.rt` is the trait; `locked_book.rt` has the lock and
//! what is done under it; `ended.rt` which workers have ended; `workers.rt` the tree and one worker; `recording.rt` the
//! whole.
#![tactic(auto)]

mod ended;
mod gate;
mod locked_book;
mod recording;
mod workers;

pub use gate::Gate;
pub use locked_book::Recorder;
pub use recording::record_job;
pub use workers::run_workers;
