//! `flame`: the flame stacks of one trace.
ghost use Rattle.commands.specs.FlameCommand.{flame};

use crate::command::{Command, Ran, Request, take_with_file};
use crate::name_words::meaning_or;
use command_frame::{Paged, RunContext};
use command_words::{TakenWords, WordsFault};
use hp_outside::{Sink, Store};
use ht_print::FlameCost;
use std::alloc::Global;
use trace_reports::{FlameText, run_flame};

/// The option that names the cost.
const COST: &str = "flamegraph-cost-type";

/// The names of costs.
const COSTS: &[(&str, FlameCost)] = &[
    ("allocations", FlameCost::Allocations),
    ("temporary", FlameCost::Temporary),
    ("leaked", FlameCost::Leaked),
    ("peak", FlameCost::Peak),
];

/// What `flame` is to do.
#[derive(Clone, Copy)]
pub struct FlameRequest<'a> {
    /// The name of the trace.
    pub trace: &'a str,
    /// Which figure of a stack is its cost.
    pub cost: FlameCost,
}

impl Command for FlameRequest<'_> {
    type Rest = Paged<FlameText>;

    ghost command = { flame };

    fn run<S: Store, O: Sink>(
        &self,
        context: &RunContext,
        store: &mut S,
        out: &mut O,
    ) -> Ran<Paged<FlameText>> {
        run_flame(context, self.trace, self.cost, store, out)
    }
}

impl<'a> Request<'a> for FlameRequest<'a> {
    fn take(alloc: Global, words: &'a [String]) -> Result<TakenWords<'a>, WordsFault> {
        take_with_file(alloc, &[COST], words)
    }

    fn request_in(_words: &'a [String], taken: &TakenWords<'a>) -> Option<Self> {
        let trace = taken.only_file()?;
        let cost = meaning_or(FlameCost::Allocations, COSTS, taken.value(COST))?;
        Some(FlameRequest { trace, cost })
    }
}
