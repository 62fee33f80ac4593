//! Names that are kept once each (`Names`), under numbers from 1 on in the order of their first appearance. What the
//! names stand for, and how many there may be, are no part of it.
//!
//! What it promises: `intern` answers the number of a name, `find` that of a name that is held, `name` the name of a
//! number. A name that is held takes no memory. The crates above may cite its `proofs/Laws`: a list without its repeats, as it
//! grows.
#![tactic(auto)]

mod names;

pub use names::Names;
