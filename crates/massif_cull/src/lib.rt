//! The culling of Massif's snapshots: which offers are taken as snapshots, and which go where there are too many. What a
//! snapshot shows beside its entry, and when offers are made, are no part of it.
//!
//! What it promises: `SnapArray` stands for the offers made to it, and keeps fewer than a set maximum of snapshots.
//! `offer` takes an offer as a normal snapshot, a detailed one or the peak, exactly as `taken_as` says, and removes
//! half of the snapshots where the maximum is reached. `take` does so with an offer that `judge` has judged; `cull` removes
//! by itself. Each snapshot that is kept comes with the load of its own offer. `take_first` gives the first snapshot back
//! with its load, for a caller that is done. No call but `new` takes memory.
//!
//! Inside, `Links` is a list of different places below a set number: `push` gives a place that was free, `unlink` frees
//! one, `first`, `next`, `prev` and `len` read the order. Snapshots stay in their slots, and links say in which order
//! they stand (`LinkedSnaps`), so that one goes without moving another. A cull removes an end whole where it may; else it
//! notes the gap of each place, and `Gaps` says at once which comes first. That an array keeps its order so, doesn't move
//! snapshots, and how long a cull takes, is no clause. The tests of the public calls are in the crate `profile_tests`.
//!
//! | File | Does |
//! |---|---|
//! | `array.rt` | which offers are taken, and what is kept of them |
//! | `removal.rt` | which snapshots a cull removes, and the interval of what is left |
//! | `ends.rt` | the end of the snapshots that a cull removes whole |
//! | `gaps.rt` | keys of places in a tournament, with the first at its top |
//! | `linked.rt` | snapshots with their loads, in the order of links |
//! | `links.rt` | places in an order of their own |
//! | `snapshot.rt`, `peak.rt` | what is offered and kept; what a peak becomes |
#![tactic(auto)]

mod array;
mod ends;
mod gaps;
mod linked;
mod links;
mod peak;
mod removal;
mod snapshot;

pub use array::SnapArray;
pub use links::Links;
pub use snapshot::{Kind, Offer, SnapEntry, Taken};
