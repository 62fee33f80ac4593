//! Traces that are read from files: their lines go into the tables, and their events into what is kept beside these. What is
//! made of a trace is the business of the commands; files and their order are the frame's.
//!
//! What it promises:
//!
//! - `Trace` keeps `Tables` and, grown step by step beside them, what follows the events (`Follower`): the tables stand for the
//!   lines, behind the texts of suppressions that were given before, and the follower for their events (`specs/Reading`).
//!   `line` takes one line, with the first fault that it has; `front` takes the line of an event at the front of bytes, where
//!   nothing about it is in doubt; `event` takes the line of an event of an info without its text.
//! - `Follower` is what is kept of the events: of a follower contracts see its ledger, the lists of events that it stands for
//!   and what always holds of it (`specs/Following`), and the fault of each event. `Peaks` are one, and `PeakTotals` are, which keep no
//!   figure of a stack; a follower that keeps more beside the tables stands in a crate above.
//! - `TraceWriter` is what a command over one trace writes: its ghost member `text` is a function of the patterns and the
//!   lines, and one method makes it. `TraceReader` is the frame's taker of a trace, for any follower and writer: a line, also
//!   at the front of bytes, is proved once for all of them. `run_trace` comes to the frame's `Runs` by `trace_plan`, over peaks;
//!   `run_followed` over any follower.
//! - `run_suppressed` reads a suppressions file and the trace behind it (`plan_behind`). The lines of that file go into the
//!   tables of the trace, which so count patterns once.
//! - `TraceFault`: what is told of a fault of a trace, with the text that its own type has for it.
//!
//! `proofs/Laws` has all that callers may cite. The tests are those of the commands, in the crate `commands_tests`.
//!
//! | File | Does |
//! |---|---|
//! | `follower.rt`, `peaks.rt`, `totals.rt` | what follows the events of a trace; peaks, and totals with their peak alone |
//! | `trace.rt`, `front.rt`, `event.rt` | one line into tables and follower; that of an event: at the front of bytes; without its text |
//! | `trace_writer.rt`, `trace_reader.rt`, `trace_run.rt` | what is written of a trace; its taker; a run over one |
//! | `suppressions.rt`, `suppressed_trace.rt` | a suppressions file, and a trace behind it |
//! | `fault.rt` | faults of a trace, as told |
#![tactic(auto)]

mod event;
mod fault;
mod follower;
mod front;
mod peaks;
mod suppressed_trace;
mod suppressions;
mod totals;
mod trace;
mod trace_reader;
mod trace_run;
mod trace_writer;

pub use fault::TraceFault;
pub use follower::Follower;
pub use peaks::take_event;
pub use suppressed_trace::run_suppressed;
pub use trace::Trace;
pub use trace_reader::TraceReader;
pub use trace_run::{run_followed, run_trace};
pub use trace_writer::TraceWriter;
