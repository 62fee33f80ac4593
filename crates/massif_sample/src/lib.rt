//! Massif's snapshots of a trace: which are taken while its events pass, what they show, and the profile that they
//! make. Which offers are kept, what a tree says and how a profile is written are the parts of the crates below.
//!
//! `Sampler` follows the events of a trace beside a ledger and takes Massif's snapshots of it. What it stands for
//! (`StandsFor`) is told of lists of names, tables and events: its figures are those of the events, its snapshots those
//! that are kept of their offers, and each has the figures of its place. What it promises:
//!
//! - `new` takes account of the stacks of the tables and takes the snapshot of place 0. `stack` takes account of the
//!   next stack, which is judged once. `event` applies an event to the ledger and, where its stack isn't ignored,
//!   offers the peak before a free and the normal snapshot behind the event. `finish` gives `sampled`, the profile of
//!   the events.
//! - An event costs a few additions and takes no memory unless a detailed snapshot or a peak is due. `NoMemory` comes
//!   only where one is (`IsDue`), then for every later event, and of `finish` (`failed`); the other faults are the
//!   ledger's, and that the gross bytes or the time of a counted event pass 2^62 (`sample_fault`), and leave sampler
//!   and ledger as they were.
//! - The law `sampling_goes_on` says that a sampler stands for the same events when its tables have grown, so that a
//!   caller may read a trace line by line beside it, and the law `rounded_sizes` that a size that is rounded up is the
//!   least multiple of the alignment that is no less than it.
//!
//! An event marks its stack. Where a detailed snapshot or a peak is due, the texts of the stacks are made that came
//! since the last such one, and a `CostHistory` notes what the marked stacks cost. No tree is built while events pass:
//! nearly every peak is followed by a greater one, and most detailed snapshots are dropped. `finish` replays the
//! history and builds the trees of the snapshots that are left; the stacks that came later cost nothing there, and a
//! tree can't tell. The tests of these calls are runs of `massif` in the crate `commands_tests`.
//!
//! | File | Does |
//! |---|---|
//! | `sampler.rt`, `taking.rt`, `offering.rt` | the sampler; how one event is taken; how a snapshot of a place is offered |
//! | `stacks.rt` | what is known of the stacks where an event comes |
//! | `running.rt` | the figures that grow with each event |
//! | `samples.rt`, `tree_places.rt` | the snapshots that are kept and what their stacks cost; which of them have trees |
//! | `load.rt` | what a snapshot shows beside its time and its total |
//! | `profile.rt`, `place_tree.rt` | the profile that the kept snapshots make; the tree of one of them |
//! | `options.rt`, `fault.rt` | what is asked; why an event isn't taken |
//! | `sample_settings.rt` | the options within their ranges, and which functions are named |
//! | `laws.rt` | the laws |
#![tactic(auto)]

mod fault;
mod laws;
mod load;
mod offering;
mod options;
mod place_tree;
mod profile;
mod running;
mod sample_settings;
mod sampler;
mod samples;
mod stacks;
mod taking;
mod tree_places;

pub use fault::SampleFault;
pub use laws::{rounded_sizes, sampling_goes_on};
pub use options::MassifOptions;
pub use sample_settings::SampleSettings;
pub use sampler::Sampler;
