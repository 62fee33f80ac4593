//! From a raw trace to an interpreted one, with a table of symbols or without.
ghost use Rattle.std.specs.Prelude.{◌^◌, ◌<◌};
ghost use Rattle.std.specs.Option.{option_copied};
ghost use Rattle.command_frame.specs.RunsTo.{Runs};
ghost use Rattle.trace_reports.specs.InterpretReport.{files_with, plan_with};

use crate::interpret_reader::{RawReader, SymbolReader, SymbolsAndTrace};
use command_frame::{Halt, PairNames, RunContext, run_one_file, run_pair};
use hp_outside::{Sink, Store};
use interpret::{Interpreter, Symbols};

/// Reads the table of symbols, where one is named, and then the named raw trace, whose interpreted lines it
/// writes while it reads, but for the rest that is answered. At a halt, other than for a failed write, the lines before it
/// have been written.
pub fn run_interpret<S: Store, O: Sink>(
    context: &RunContext,
    symbols: Option<&str>,
    trace: &str,
    store: &mut S,
    out: &mut O,
) -> Result<Vec<u8>, Halt>
    requires { S.opens store.old < 2 ^ 63 }
    ensures { Runs S.Store O.Sink context.now (files_with (option_copied symbols.entry) trace.now)
        (plan_with (option_copied symbols.entry) trace.now)
        store.old store.new out.old out.new result }
{
    match symbols {
        Some(symbols) => {
            let names = PairNames {
                first: symbols,
                second: trace,
            };
            let reader = SymbolReader {
                symbols: Symbols::new(context.alloc),
            };
            run_pair(context, &names, &SymbolsAndTrace, reader, store, out)
        }
        None => {
            let reader = RawReader {
                interpreter: Interpreter::new(context.alloc, Symbols::new(context.alloc)),
            };
            run_one_file(context, trace, reader, store, out)
        }
    }
}
