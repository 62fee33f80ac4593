//! Recordings: an interleaving of the threads' turns, the trace that it gives, and the interleaving that a trace's bytes
//! spell. How threads share it is no part of it.
//!
//! `Book` is a recording of scripts, as far as their threads have come: contracts see the scripts with their modules
//! and the order, which is the thread of each event so far. What it promises:
//!
//! - `new` makes the empty one, `step` takes the next turn of a thread, `steps` up to 64 of them. At every moment
//!   `bytes` is the trace of that order (`recorded`), the order is one under the scripts (`IsUnder`), and no two live
//!   blocks overlap (`LieApart`); both are told by `order`. `into_bytes` gives the trace up without a copy. After
//!   `NoMemory` a step leaves the book as it was.
//! - `TraceStream` is a recording of which a front of the trace may be let go (`let_go`): each `step` appends to the text
//!   that is kept exactly what it appends to the trace, so who looks at a trace once needs no room for all of it.
//!   `is_complete` tells whether all turns are taken. A book is such a stream of which nothing was let go.
//! - `finish` takes all turns that are left: the book that it gives is one of the scripts that are handed in, its order
//!   is an interleaving of them (`IsInterleaving`) whose figures are those of the scripts (`HasScriptFigures`), and
//!   where the book had these scripts and modules, for as many events or not, its order goes on from the earlier one.
//! - `put_summary` appends the six lines of a book whose turns are all taken (`rec_summary`), as `finish` gives it;
//!   they are meant to stand behind its bytes.
//! - The law `spelled_orders` says which order the bytes of a recording spell (`spelled`): that of the recording, also
//!   where the summary stands behind them. The order is read off the lines: `# thread` with a number names the thread of
//!   the events behind it. The lines of modules have to spell nothing (`AreQuiet`), which `quiet_modules` says of whole
//!   lines about modules (`AreModuleLines`), and there may be 64 scripts at most.
//!
//! The crates above may cite its `proofs/Laws`. The tests of these calls are in the crate `record_tests`.
//!
//! | File | Does |
//! |---|---|
//! | `book.rt` | the book: a recording with all of its trace |
//! | `trace_stream.rt` | a recording of which a front of the trace may be let go; takes the turns |
//! | `trace.rt` | appends the lines of a turn, and takes them back where memory is wanting halfway |
//! | `node_lines.rt` | interns a stack from the outermost pointer on, and writes each new node |
//! | `turn_stack.rt`, `node_map.rt` | a turn's stack, by its node or by its pointers; the nodes of the trace by those of the scripts |
//! | `heap.rt`, `live_blocks.rt` | where blocks lie; the live ones by thread and ID |
//! | `free_places.rt`, `free_addresses.rt` | the places without a block: those of a class in a heap each |
//! | `tally.rt`, `summary.rt` | the figures of turns that are taken one after another; the six lines |
//! | `spelling.rt` | the laws on the order that bytes spell |
#![tactic(auto)]

mod book;
mod free_addresses;
mod free_places;
mod heap;
mod live_blocks;
mod node_lines;
mod node_map;
mod spelling;
mod summary;
mod tally;
mod trace;
mod trace_stream;
mod turn_stack;

pub use book::Book;
pub use spelling::{quiet_modules, spelled_orders};
pub use trace_stream::TraceStream;
