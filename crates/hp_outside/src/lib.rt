//! Files, their lines, and outputs: what a program reads from and writes to, as two traits with ghost members for what
//! contracts say of them. The system's own, those in memory that can fail at named calls, and those that never fail;
//! and files read whole or line by line, within limits.
//!
//! What it promises:
//!
//! - `Store` has `files` (told or not), `current`, `left` (told or not), `opens` and `faults`. `open` makes a file
//!   current, `read` fills a front of a buffer. `Failed` comes only where `faults` rose, `Absent` exactly where a store
//!   that tells its files lacks the name. A call that answers `Ok` leaves `faults` as it was.
//! - `Sink` has `written` (told or not) and `faults`. `write` takes a front of a piece, `flush` takes nothing. A call
//!   that answers `Ok` leaves `faults` as it was.
//! - `read_whole`, `write_whole`: all that is left of a file within the limit; all bytes of a slice, with no fault of
//!   the sink, or after a failure a front of them that is not all.
//! - `LineReader`: the lines of a file one by one, however reads are cut. `next` answers as `NextAnswer` and
//!   `GivesLine` say of the bytes that are left, reads only where the bytes that it holds decide nothing, and takes no
//!   memory. No line has a line feed, whatever the store tells (`one_line`). `ended` says whether the last line had its
//!   line feed.
//! - `ready_lines` lends the bytes that the reader holds, within the limit of the file, and `pass` drops a front of
//!   them that is so many whole lines: the lines of the file's rest are those lines and the lines of what is left,
//!   whatever the store still has.
//! - `MemStore`, `MemSink` fail exactly at the calls that were named; `SureStore`, `SureSink` never; `FsStore`,
//!   `StdSink` are the system's and tell nothing.
//! - `Limits`: their ranges are facts of the type.
//! - `OpenFault`, `LineFault` and `WholeFault` have one text each, which the messages of programs use.
//!
//! The crates above may cite its `proofs/Laws`: on whole lines in front of other bytes. The tests of these calls are the crate
//! `hp_outside_tests`.
//!
//! | File | Does |
//! |---|---|
//! | `store.rt`, `sink.rt` | the two traits |
//! | `fs_store.rt`, `std_sink.rt` | the system's files, standard input and outputs |
//! | `sure_store.rt`, `sure_sink.rt` | in memory, never failing |
//! | `mem_store.rt`, `mem_sink.rt`, `calls.rt` | in memory, failing at named calls |
//! | `whole.rt` | whole files and whole outputs |
//! | `line_reader.rt`, `line_end.rt`, `span.rt` | the lines of a file; what bytes tell of the next one |
//! | `window.rt` | the buffer of a `LineReader` |
//! | `limits.rt` | the numbers that bound an input |
//! | `words.rt` | the words that a program was given |
#![tactic(auto)]

mod calls;
mod fs_store;
mod limits;
mod line_end;
mod line_reader;
mod mem_sink;
mod mem_store;
mod sink;
mod span;
mod std_sink;
mod store;
mod sure_sink;
mod sure_store;
mod whole;
mod window;
mod words;

pub use fs_store::FsStore;
pub use limits::Limits;
pub use line_reader::LineReader;
pub use mem_sink::MemSink;
pub use mem_store::MemStore;
pub use sink::Sink;
pub use span::{LineFault, Span};
pub use std_sink::StdSink;
pub use store::{Failed, OpenFault, Store};
pub use sure_sink::SureSink;
pub use sure_store::SureStore;
pub use whole::{Bytes, WholeFault, read_whole, write_whole};
pub use words::given_words;
