//! The DHAT profile of a heap trace: a point for each stack that allocated, and the table of their frames. How a
//! profile is spelled is `dhat_json`'s part, and how the figures come from events that of the crates that keep them.
//!
//! What it promises: `trace_profile_text` gives the text of the profile of a trace from its tables, its peaks and the
//! lifetimes of its blocks, by what these hold (`profile`), and by the events that they stand for (`trace`, which is that of
//! `dhat_of`). The text reads as that profile (`reads_back`), so it needs fewer events than points can be numbered. The texts
//! of an instruction's frames are made once, interned, and told by their places in the table that grows; a place stays as the
//! table grows, so each point is that of the whole table. A stack goes on with the places of the first stack outwards that
//! was told before: they are copied where they are few, and otherwise its list goes on with that stack's list, so that memory goes
//! by nodes and not by the depth of stacks. No profile is held as a value: the points are written from figures and places, and
//! what the trace was read into is let go before.
//!
//! | File | Does |
//! |---|---|
//! | `profile.rt` | the profile's text |
//! | `points.rt` | which stacks have a point, and their figures |
//! | `backtraces.rt`, `segment.rt` | the places of the frames of these stacks; where a long way outwards is parted |
//! | `frame_table.rt`, `texts.rt` | the table of frames; texts as they stand in a profile |
//! | `known_places.rt`, `place_lists.rt` | the places of the frames of instructions, and of stacks |
//!
//! The tests of these calls are runs of `dhat` in the crate `commands_tests`.
#![tactic(auto)]

mod backtraces;
mod frame_table;
mod known_places;
mod place_lists;
mod points;
mod profile;
mod segment;
mod texts;

pub use profile::trace_profile_text;
