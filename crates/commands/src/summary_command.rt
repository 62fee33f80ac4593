//! `summary`: the figures of one trace.
ghost use Rattle.commands.specs.SummaryCommand.{summary};

use crate::command::{Command, Ran, Request, take_with_file};
use command_frame::RunContext;
use command_words::{TakenWords, WordsFault};
use hp_outside::{Sink, Store};
use std::alloc::Global;
use trace_reports::run_summary;

/// What `summary` is to do.
#[derive(Clone, Copy)]
pub struct SummaryRequest<'a> {
    /// The name of the trace.
    pub trace: &'a str,
}

impl Command for SummaryRequest<'_> {
    type Rest = Vec<u8>;

    ghost command = { summary };

    fn run<S: Store, O: Sink>(&self, context: &RunContext, store: &mut S, out: &mut O) -> Ran {
        run_summary(context, self.trace, store, out)
    }
}

impl<'a> Request<'a> for SummaryRequest<'a> {
    fn take(alloc: Global, words: &'a [String]) -> Result<TakenWords<'a>, WordsFault> {
        take_with_file(alloc, &[], words)
    }

    fn request_in(_words: &'a [String], taken: &TakenWords<'a>) -> Option<Self> {
        let trace = taken.only_file()?;
        Some(SummaryRequest { trace })
    }
}
