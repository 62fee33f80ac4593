//! Commands that write a profile of a trace, for which more is kept beside the tables while the lines are read: Massif's
//! snapshots, and the lifetimes of DHAT. They are parted from the other commands for the price of a check. The words that ask for a profile are the business of the commands; files and their order are the
//! frame's.
//!
//! What it promises: `run_massif` and `run_dhat` come to the frame's `Runs`, by `massif_plan` and `dhat_plan`, which say the
//! whole text of the profile by the lines of the trace, and the first fault of each line. Both take lines of events many at a
//! time.
//!
//! Both read a trace as `trace_reading` does, each with a follower of its own. That of `dhat`, `PeaksWithLifetimes`, is peaks, and lifetimes
//! beside them, which take each event that the peaks took.
//!
//! That of `massif`, `Sampling`, is a ledger and a sampler, whose fault an event's is too. Where memory is wanting for a
//! snapshot, the event is taken, since it has no fault, and the sampler is let go: from then on no stack and no event is
//! taken, and no profile is given. So the follower stands for events only where there is a sampler. The lists of functions'
//! names are texts in the settings (`SampleSettings`), and the sampler gets each as a closure; what both mean is a ghost
//! member of a type parameter (`Settled`), which `run_massif` picks.
//!
//! The tests are those of the commands, in the crate `commands_tests`.
//!
//! | File | Does |
//! |---|---|
//! | `peaks_with_lifetimes.rt`, `dhat_run.rt` | peaks and lifetimes as what follows a trace; a run over one |
//! | `sampling.rt`, `massif_run.rt` | a ledger and a sampler as what follows a trace; a run over one |
//! | `name_list.rt` | the names of a list, and whether a name is one of them |
#![tactic(auto)]

mod dhat_run;
mod massif_run;
mod name_list;
mod peaks_with_lifetimes;
mod sampling;

pub use dhat_run::run_dhat;
pub use massif_run::run_massif;
