//! `print`: the report on one trace.
ghost use Rattle.std.specs.Prelude.{◌≡◌, ◌≤◌, codes, option_map};
ghost use Rattle.command_words.specs.WordsTaken.{rows_in, value_in};
ghost use Rattle.commands.specs.PrintCommand.{limit_or, options_given, print, reads_input_twice, switch_or};

use crate::command::{Command, Ran, Request, take_with_file};
use crate::name_words::meaning_or;
use crate::number_words::number_or;
use command_frame::RunContext;
use command_words::{TakenWords, WordsFault};
use hp_outside::{Sink, Store};
use ht_print::PrintOptions;
use std::alloc::Global;
use trace_reports::run_print;

/// The option that names a suppressions file.
const SUPPRESSIONS: &str = "suppressions";

/// The options.
const OPTIONS: &[&str] = &[
    "print-allocators",
    "print-peaks",
    "print-leaks",
    "print-temporary",
    "merge-backtraces",
    "histogram",
    "peak-limit",
    "sub-peak-limit",
    SUPPRESSIONS,
];

/// What the value of a switch says.
const SWITCHES: &[(&str, bool)] = &[("1", true), ("0", false)];

/// How many entries may be shown.
const MOST_ENTRIES: u64 = 1_000_000;

/// What `print` is to do.
#[derive(Clone, Copy)]
pub struct PrintRequest<'a> {
    /// The name of the trace.
    pub trace: &'a str,
    /// The name of the suppressions file, if there is one.
    pub suppressions: Option<&'a str>,
    /// What is shown.
    pub options: PrintOptions,
}

impl Command for PrintRequest<'_> {
    type Rest = Vec<u8>;

    ghost command = { print };

    fn run<S: Store, O: Sink>(&self, context: &RunContext, store: &mut S, out: &mut O) -> Ran {
        run_print(
            context,
            self.suppressions,
            self.trace,
            self.options,
            store,
            out,
        )
    }
}

impl<'a> Request<'a> for PrintRequest<'a> {
    fn take(alloc: Global, words: &'a [String]) -> Result<TakenWords<'a>, WordsFault> {
        take_with_file(alloc, OPTIONS, words)
    }

    fn request_in(_words: &'a [String], taken: &TakenWords<'a>) -> Option<Self> {
        let trace = taken.only_file()?;
        let options = options_in(taken)?;
        let suppressions = taken.value(SUPPRESSIONS);
        if reads_input_twice(suppressions, trace) {
            return None;
        }
        Some(PrintRequest {
            trace,
            suppressions,
            options,
        })
    }
}

/// Whether both files are standard input, which can be read only once.
fn reads_input_twice(suppressions: Option<&str>, trace: &str) -> bool
    ensures { result ≡ reads_input_twice (option_map (λ name. name.now) suppressions.entry)
        trace.now }
{
    match suppressions {
        Some(suppressions) => suppressions == "-" && trace == "-",
        None => false,
    }
}

/// What taken words say of a report. `None` exactly where a value is out of its range.
fn options_in(words: &TakenWords) -> Option<PrintOptions>
    ensures { result ≡ options_given (rows_in words.now) }
{
    Some(PrintOptions {
        allocators: switch_in(words, "print-allocators", true)?,
        peaks: switch_in(words, "print-peaks", true)?,
        leaks: switch_in(words, "print-leaks", true)?,
        temporary: switch_in(words, "print-temporary", true)?,
        merge: switch_in(words, "merge-backtraces", true)?,
        histogram: switch_in(words, "histogram", false)?,
        limit: limit_in(words, "peak-limit", 10)?,
        sub_limit: limit_in(words, "sub-peak-limit", 5)?,
    })
}

/// Whether something is switched on: `absent` where the words don't say so.
fn switch_in(words: &TakenWords, option: &str, absent: bool) -> Option<bool>
    ensures { result ≡ switch_or absent (value_in (rows_in words.now) option.now) }
{
    meaning_or(absent, SWITCHES, words.value(option))
}

/// How many entries are shown: `absent` where the words don't say so.
fn limit_in(words: &TakenWords, option: &str, absent: u32) -> Option<u32>
    requires most { absent ≤ 1000000 }
    ensures { result ≡ limit_or absent (value_in (rows_in words.now) option.now) }
{
    let limit = number_or(u64::from(absent), 0, MOST_ENTRIES, words.value(option))?;
    Some(limit as u32)
}
