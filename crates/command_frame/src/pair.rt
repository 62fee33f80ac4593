//! A whole run over two files that are read by lines, of which the first says what is made of the second.
ghost use Rattle.std.specs.Prelude.{◌-◌, ◌^◌, ◌<◌, ℕ, List, IfOk};
ghost use Rattle.command_frame.specs.NewTaker.{IsNewTaker};
ghost use Rattle.command_frame.specs.Report.{Report};
ghost use Rattle.command_frame.specs.RunsTo.{ReadiesPair};
ghost use Rattle.command_frame.specs.Taker.{Reports};

use crate::context::RunContext;
use crate::files::read_named_file;
use crate::halt::Halt;
use crate::report::LineReport;
use crate::run::run_last_file;
use crate::taker::LineTaker;
use hp_num::NoMemory;
use hp_outside::{LineReader, Sink, Store};
use std::alloc::Global;

/// What is made of two files, with the options of a command.
pub trait FilePair {
    /// What takes the lines of the first file.
    type First: LineTaker + Drop;

    /// What takes those of the second, and makes the rest of the output.
    type Second: LineReport;

    /// What is made of the second file, the first one having these lines.
    ghost second_report: { Self → List (List ℕ) → Report };

    /// The taker of the second file, made of that of the first one, which has taken all lines. `NoMemory` where memory is
    /// wanting.
    fn second(&self, alloc: Global, first: Self::First) -> Result<Self::Second, NoMemory>
        requires sound { Self.First.is_sound first }
        ensures new { IfOk result (λ second. IsNewTaker Self.Second.LineTaker second) }
        ensures report { Reports (Self.First.has_taken first) (second_report self.now)
            Self.Second.report result };
}

/// The names of two files.
#[derive(Clone, Copy)]
pub struct PairNames<'a> {
    pub first: &'a str,
    pub second: &'a str,
}

/// Takes all lines of the first file and then all lines of the second one, and makes the rest of the output of those.
pub fn run_pair<P: FilePair, S: Store, O: Sink>(
    context: &RunContext,
    names: &PairNames,
    pair: &P,
    first: P::First,
    store: &mut S,
    out: &mut O,
) -> Result<<P::Second as LineReport>::Rest, Halt>
    requires opens { S.opens store.old < 2 ^ 64 - 2 }
    requires taker { IsNewTaker P.First.LineTaker first }
    ensures { ReadiesPair S.Store O.Sink P.Second.Rest.bytes context.now names.now
        (P.First.report first) (P.second_report pair.now)
        store.old store.new out.old out.new result }
{
    let mut lines = LineReader::new(context.alloc, &context.limits)?;
    let mut first = first;
    match read_named_file(context, &mut lines, names.first, &mut first, store, out) {
        Ok(()) => {}
        Err(halt) => return Err(halt),
    }
    let second = pair.second(context.alloc, first)?;
    run_last_file(context, &mut lines, names.second, second, store, out)
}
