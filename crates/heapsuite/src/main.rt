//! `heapsuite`: reports on heap traces.
//!
//! The program makes the real store and outputs and ends with the status of `heapsuite_main`, which goes to `heapsuite_run`
//! of `commands`, the program's contract, with the limits of the program.
#![tactic(auto)]

mod run;

use crate::run::heapsuite_main;
use hp_outside::{FsStore, StdSink, given_words};
use std::env;
use std::process::ExitCode;

fn main(rt: HostRuntime) -> ExitCode {
    let alloc = rt.alloc();
    let mut store = FsStore::new(&rt);
    let mut out = StdSink::new(rt.stdout());
    let mut err = StdSink::new(rt.stderr());
    let words = given_words(alloc, env::args(&rt));
    heapsuite_main(alloc, &words, &mut store, &mut out, &mut err)
}
