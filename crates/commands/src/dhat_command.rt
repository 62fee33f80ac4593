//! `dhat`: the DHAT profile of one trace.
ghost use Rattle.commands.specs.DhatCommand.{dhat};

use crate::command::{Command, Ran, Request, take_with_file};
use command_frame::RunContext;
use command_words::{TakenWords, WordsFault};
use hp_outside::{Sink, Store};
use std::alloc::Global;
use trace_profiles::run_dhat;

/// What `dhat` is to do.
#[derive(Clone, Copy)]
pub struct DhatRequest<'a> {
    /// The name of the trace.
    pub trace: &'a str,
}

impl Command for DhatRequest<'_> {
    type Rest = Vec<u8>;

    ghost command = { dhat };

    fn run<S: Store, O: Sink>(&self, context: &RunContext, store: &mut S, out: &mut O) -> Ran {
        run_dhat(context, self.trace, store, out)
    }
}

impl<'a> Request<'a> for DhatRequest<'a> {
    fn take(alloc: Global, words: &'a [String]) -> Result<TakenWords<'a>, WordsFault> {
        take_with_file(alloc, &[], words)
    }

    fn request_in(_words: &'a [String], taken: &TakenWords<'a>) -> Option<Self> {
        let trace = taken.only_file()?;
        Some(DhatRequest { trace })
    }
}
