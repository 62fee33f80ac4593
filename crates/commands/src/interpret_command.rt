//! `interpret`: the interpretation of one raw trace.
ghost use Rattle.std.specs.Prelude.{◌≡◌};
ghost use Rattle.std.specs.Option.{option_copied};
ghost use Rattle.commands.specs.InterpretCommand.{both_are_input, interpret};

use crate::command::{Command, Ran, Request, take_with_file};
use command_frame::RunContext;
use command_words::{TakenWords, WordsFault};
use hp_outside::{Sink, Store};
use std::alloc::Global;
use trace_reports::run_interpret;

/// The option that names the table of symbols.
const SYMBOLS: &str = "symbols";

/// What `interpret` is to do.
#[derive(Clone, Copy)]
pub struct InterpretRequest<'a> {
    /// The name of the table of symbols, if there is one.
    pub symbols: Option<&'a str>,
    /// The name of the raw trace.
    pub trace: &'a str,
}

impl Command for InterpretRequest<'_> {
    type Rest = Vec<u8>;

    ghost command = { interpret };

    fn run<S: Store, O: Sink>(&self, context: &RunContext, store: &mut S, out: &mut O) -> Ran {
        run_interpret(context, self.symbols, self.trace, store, out)
    }
}

impl<'a> Request<'a> for InterpretRequest<'a> {
    fn take(alloc: Global, words: &'a [String]) -> Result<TakenWords<'a>, WordsFault> {
        take_with_file(alloc, &[SYMBOLS], words)
    }

    fn request_in(_words: &'a [String], taken: &TakenWords<'a>) -> Option<Self> {
        let trace = taken.only_file()?;
        let symbols = taken.value(SYMBOLS);
        if both_are_input(symbols, trace) {
            return None;
        }
        Some(InterpretRequest { symbols, trace })
    }
}

/// Whether both files are standard input.
fn both_are_input(symbols: Option<&str>, trace: &str) -> bool
    ensures { result ≡ both_are_input (option_copied symbols.entry) trace.now }
{
    match symbols {
        Some(symbols) => symbols == "-" && trace == "-",
        None => false,
    }
}
