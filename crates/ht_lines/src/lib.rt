//! The grammar of trace lines, after the trace files of KDE heaptrack: raw traces and interpreted ones (`Form`), one
//! line at a time. It knows no file and keeps no table.
//!
//! What it promises:
//!
//! - `read_item`: a line to what it says in a form and a file version, or to its first fault, both as relations
//!   (`Reads`, `Refuses`) and as one function of the line (`reading`), so that the definitions above can be functions
//!   too.
//! - Of an item it tells beside that: its tail has numbers alone, as many as it says (`IsWhole`), and is what follows
//!   the fields before it (`HasTail`); its numbers fit 64 bits and it can be written (`IsWritable`); its line has so
//!   many bytes at least (`least_length`); and its texts have no line feed where the line has none (`HasOneLineTexts`).
//! - `put_item`: the one written form of what an item says, with one line feed where its texts have none. Read again in
//!   the same form and version, whatever is writable says the same.
//! - `field`, `next_number`: the numbers of a tail.
//! - `Malformed::text` says what a fault is called.
//! - `event_line`: the line of an event at the front of some bytes in its usual form, in one walk (`BeginsWithEvent`:
//!   the front is a line and its line feed, which says this event in every version). `raw_line`: the same of an
//!   allocation, a free or a node of a raw trace (`BeginsWithRaw`). Both may pass over any line, which `read_item` then
//!   judges.
//!
//! The crates above may cite its `proofs/Laws`: what is written is read again, a line has one reading, and texts of one
//! line stay so. The tests of these calls are in the crate `ht_trace_tests`, so that the grammar is proved once.
//!
//! | File | Does |
//! |---|---|
//! | `item.rt` | what a line says, and what may be wrong with it: the types |
//! | `read.rt` | from a line to its item: which kind it is, and what of it is read |
//! | `numbers.rt`, `tailed.rt`, `text.rt` | kinds of numbers alone; with a tail; texts with their sizes |
//! | `fields.rt` | the pieces between blanks |
//! | `event.rt`, `raw.rt` | the line of an event, and lines of a raw trace, in their usual form, in one walk |
//! | `write.rt` | from an item to its written form |
#![tactic(auto)]

mod event;
mod fields;
mod item;
mod numbers;
mod raw;
mod read;
mod tailed;
mod text;
mod write;

pub use event::{EventKind, EventLine, event_line};
pub use fields::{field, next_number};
pub use item::{Form, Item, Malformed};
pub use raw::{RawEvent, RawLine, raw_line};
pub use read::read_item;
pub use write::put_item;
