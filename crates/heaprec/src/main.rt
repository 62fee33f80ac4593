//! `heaprec`: replays a script per thread and records one trace.
//!
//! The program makes the real store and outputs and ends with the status of `heaprec_main` of `heaprec_commands`, which goes to
//! `heaprec_run`, the program's contract.
#![tactic(auto)]

use heaprec_commands::heaprec_main;
use hp_outside::{FsStore, StdSink, given_words};
use std::env;
use std::process::ExitCode;

fn main(rt: HostRuntime) -> ExitCode {
    let alloc = rt.alloc();
    let mut store = FsStore::new(&rt);
    let mut out = StdSink::new(rt.stdout());
    let mut err = StdSink::new(rt.stderr());
    let words = given_words(alloc, env::args(&rt));
    heaprec_main(&rt, alloc, &words, &mut store, &mut out, &mut err)
}
