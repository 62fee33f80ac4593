//! `massif`: Massif's snapshots of one trace.
ghost use Rattle.std.specs.Prelude.{◌≡◌, ◌≢◌, ◌≤◌, codes, option_map, true, IfSome};
ghost use Rattle.std.specs.Int.{is_power_of_two};
ghost use Rattle.command_words.specs.WordsTaken.{rows_in, value_in};
ghost use Rattle.massif_sample.specs.AreWithin.{AreWithin};
ghost use Rattle.massif_sample.specs.NameList.{names_in};
ghost use Rattle.commands.specs.MassifCommand.{alignment_or, massif, names_or, options_given, unit_or};

use crate::command::{Command, Ran, Request, take_with_file};
use crate::name_words::meaning_or;
use crate::number_words::{number_or, percent_or};
use command_frame::RunContext;
use command_words::{TakenWords, WordsFault};
use hp_outside::{Sink, Store};
use massif_file::TimeUnit;
use massif_sample::{MassifOptions, SampleSettings};
use std::alloc::Global;
use trace_profiles::run_massif;

/// The option that names the functions that stacks are shown without.
const ALLOC_FNS: &str = "alloc-fns";

/// The option that names the functions whose stacks are ignored.
const IGNORE_FNS: &str = "ignore-fns";

/// The options.
const OPTIONS: &[&str] = &[
    "threshold",
    "peak-inaccuracy",
    "detailed-freq",
    "max-snapshots",
    "depth",
    "heap-admin",
    "alignment",
    "time-unit",
    ALLOC_FNS,
    IGNORE_FNS,
];

/// What times may count, by its name. Instructions aren't known of a trace.
const UNITS: &[(&str, TimeUnit)] = &[
    ("B", TimeUnit::Bytes),
    ("ms", TimeUnit::Milliseconds),
    ("e", TimeUnit::Events),
];

/// What `massif` is to do.
#[derive(Clone, Copy)]
pub struct MassifRequest<'a> {
    /// The name of the trace.
    pub trace: &'a str,
    /// How its snapshots are taken.
    pub settings: SampleSettings<'a>,
}

impl Command for MassifRequest<'_> {
    type Rest = Vec<u8>;

    ghost command = { massif };

    fn run<S: Store, O: Sink>(&self, context: &RunContext, store: &mut S, out: &mut O) -> Ran {
        run_massif(context, self.trace, &self.settings, store, out)
    }
}

impl<'a> Request<'a> for MassifRequest<'a> {
    #[tactic(auto, unfolding(crate::specs::MassifCommand::massif_table))]
    fn take(alloc: Global, words: &'a [String]) -> Result<TakenWords<'a>, WordsFault> {
        take_with_file(alloc, OPTIONS, words)
    }

    #[tactic(auto, unfolding(crate::specs::MassifCommand::massif_given))]
    fn request_in(_words: &'a [String], taken: &TakenWords<'a>) -> Option<Self> {
        let trace = taken.only_file()?;
        let options = options_in(taken)?;
        let alloc_fns = list_in(taken, ALLOC_FNS);
        let ignore_fns = list_in(taken, IGNORE_FNS);
        let settings = SampleSettings {
            options,
            alloc_fns,
            ignore_fns,
        };
        Some(MassifRequest { trace, settings })
    }
}

/// The list of names that an option gives: the empty one where it isn't given.
fn list_in<'a>(words: &TakenWords<'a>, option: &str) -> &'a str
    ensures { names_in result.now ≡ names_or (value_in (rows_in words.now) option.now) }
{
    words.value(option).unwrap_or("")
}

/// How snapshots are taken, by taken words. `None` exactly where a value is out of its range.
fn options_in(words: &TakenWords) -> Option<MassifOptions>
    ensures options { result ≡ options_given (rows_in words.now) }
    ensures within { IfSome result (λ options. AreWithin options) }
{
    let threshold = percent_or(words.value("threshold"))?;
    let inaccuracy = percent_or(words.value("peak-inaccuracy"))?;
    let detailed_freq = number_or(10, 1, 1_000_000, words.value("detailed-freq"))?;
    let max_snapshots = number_or(100, 10, 1000, words.value("max-snapshots"))?;
    let depth = number_or(30, 1, 200, words.value("depth"))?;
    let admin = number_or(8, 0, 1024, words.value("heap-admin"))?;
    let alignment = alignment_or(words.value("alignment"))?;
    let unit = unit_or(words.value("time-unit"))?;
    Some(MassifOptions {
        threshold,
        inaccuracy,
        detailed_freq,
        max_snapshots: max_snapshots as u32,
        depth: depth as u32,
        admin,
        alignment,
        unit,
    })
}

/// What sizes are rounded up to a multiple of, a power of two: 16 where the option isn't given.
fn alignment_or(value: Option<&str>) -> Option<u64>
    ensures alignment { result ≡ alignment_or (option_map (λ text. text.now) value.entry) }
    ensures power { IfSome result (λ alignment. is_power_of_two alignment ≡ true) }
    ensures most { IfSome result (λ alignment. alignment ≤ 4096) }
{
    let alignment = number_or(16, 1, 4096, value)?;
    if alignment.is_power_of_two() {
        Some(alignment)
    } else {
        None
    }
}

/// What times count: bytes where the option isn't given.
fn unit_or(value: Option<&str>) -> Option<TimeUnit>
    ensures unit { result ≡ unit_or (option_map (λ text. text.now) value.entry) }
    ensures known { IfSome result (λ unit. unit ≢ TimeUnit.Instructions) }
{
    meaning_or(TimeUnit::Bytes, UNITS, value)
}
