//! `gen`: a generated trace, or its summary.
ghost use Rattle.commands.specs.GenCommand.{gen};

use crate::command::{Command, Ran, Request};
use crate::number_words::number_or;
use command_frame::RunContext;
use command_words::{TakenWords, WordTable, WordsFault, take_words};
use hp_outside::{Sink, Store};
use std::alloc::Global;
use trace_gen::GeneratorOptions;
use trace_reports::{run_gen, run_gen_summary};

/// What `gen` is to do.
#[derive(Clone, Copy)]
pub struct GenRequest {
    /// What the trace is generated from.
    pub options: GeneratorOptions,
    /// Whether its summary is written in its stead.
    pub run: bool,
}

impl Command for GenRequest {
    type Rest = Vec<u8>;

    ghost command = { gen };

    fn run<S: Store, O: Sink>(&self, context: &RunContext, _store: &mut S, out: &mut O) -> Ran {
        if self.run {
            return run_gen_summary(context, &self.options);
        }
        run_gen(context, &self.options, out)
    }
}

impl<'a> Request<'a> for GenRequest {
    fn take(alloc: Global, words: &'a [String]) -> Result<TakenWords<'a>, WordsFault> {
        let table = WordTable {
            options: &["seed", "events", "stacks"],
            flags: &["run"],
            files: false,
        };
        take_words(alloc, &table, words)
    }

    fn request_in(_words: &'a [String], taken: &TakenWords<'a>) -> Option<Self> {
        let seed = number_or(1, 0, 2_147_483_647, taken.value("seed"))?;
        let events = number_or(1000, 0, 10_000_000, taken.value("events"))?;
        let stacks = number_or(10, 1, 4000, taken.value("stacks"))?;
        let options = GeneratorOptions {
            seed,
            stacks,
            events,
        };
        let run = taken.has("run");
        Some(GenRequest { options, run })
    }
}
