//! A whole run over one trace, whose snapshots are written as a Massif file.
ghost use Rattle.std.specs.Prelude.{◌≡◌, ◌^◌, ◌<◌, IfOk, [], ◌∷◌};
ghost use Rattle.command_frame.specs.RunsTo.{Runs};
ghost use Rattle.massif_sample.specs.SettingsIn.{settings_in};
ghost use Rattle.trace_profiles.specs.MassifReport.{command_in, massif_plan};
ghost use Rattle.trace_profiles.specs.ListedNames.{listed};

use crate::name_list::{is_named, names_of};
use crate::sampling::{Sampling, Settled};
use command_frame::{Halt, RunContext};
use cost_tree::FrameTest;
use hp_num::NoMemory;
use hp_outside::{Sink, Store};
use ht_trace::Tables;
use intern_tables::Names;
use massif_file::put_profile;
use massif_sample::SampleSettings;
use std::alloc::Global;
use std::marker::Brand;
use trace_reading::{TraceWriter, run_followed};

/// Writes the profile as a Massif file.
#[derive(Clone, Copy)]
pub struct MassifWriter;

impl<A: Fn(&[u8]) -> bool, I: Fn(&[u8]) -> bool, T: Settled> TraceWriter<Sampling<A, I, T>>
    for MassifWriter {
    ghost use Rattle.trace_profiles.specs.MassifReport.{massif_written};

    type Rest = Vec<u8>;

    ghost text = { λ _. massif_written T.settings };

    fn write(
        &self,
        alloc: Global,
        tables: Tables,
        sampling: Sampling<A, I, T>,
    ) -> Result<Vec<u8>, NoMemory> {
        let Some(sampler) = sampling.into_sampler() else {
            return Err(NoMemory);
        };
        let profile = sampler.finish(command(&tables))?;
        drop(tables);
        let mut output = Vec::new(alloc);
        put_profile(&profile, &mut output)?;
        Ok(output)
    }
}

/// The command of the tables' trace, and the empty text where it has none.
fn command(tables: &Tables) -> &[u8]
    ensures { result.now ≡ command_in tables.now }
{
    match tables.command() {
        Some(text) => text,
        None => b"",
    }
}

/// A trace, and the settings of its profile.
#[derive(Clone, Copy)]
struct Profiled<'a> {
    trace: &'a str,
    settings: &'a SampleSettings<'a>,
}

/// Reads the named trace, and gives its profile by these settings, as a Massif file.
pub fn run_massif<S: Store, O: Sink>(
    context: &RunContext,
    name: &str,
    settings: &SampleSettings,
    store: &mut S,
    out: &mut O,
) -> Result<Vec<u8>, Halt>
    requires { S.opens store.old < 2 ^ 63 }
    ensures { Runs S.Store O.Sink context.now (name.now ∷ [])
        (massif_plan (settings_in settings.now) name.now)
        store.old store.new out.old out.new result }
{
    let profiled = Profiled {
        trace: name,
        settings,
    };
    run_settled::<Brand, S, O>(context, &profiled, store, out)
}

/// The same, where `T` says what the settings are.
fn run_settled<T: Settled, S: Store, O: Sink>(
    context: &RunContext,
    profiled: &Profiled,
    store: &mut S,
    out: &mut O,
) -> Result<Vec<u8>, Halt>
    requires opens { S.opens store.old < 2 ^ 63 }
    requires settled { settings_in profiled.now.settings.now ≡ T.settings }
    ensures { Runs S.Store O.Sink context.now (profiled.now.trace.now ∷ [])
        (massif_plan T.settings profiled.now.trace.now)
        store.old store.new out.old out.new result }
{
    let settings = profiled.settings;
    let (alloc_fns, ignore_fns) = names_in_settings(context.alloc, settings)?;
    let alloc_test = FrameTest::new(move |function: &[u8]| is_named(&alloc_fns, function));
    let ignore_test = FrameTest::new(move |function: &[u8]| is_named(&ignore_fns, function));
    let sampling = Sampling::<_, _, T>::new(
        context.alloc,
        settings.options,
        alloc_test,
        ignore_test,
    )?;
    run_followed(context, profiled.trace, sampling, MassifWriter, store, out)
}

/// The names of both lists of functions, which the tests of names keep. `NoMemory` where memory is wanting.
fn names_in_settings(alloc: Global, settings: &SampleSettings) -> Result<(Names, Names), NoMemory>
    ensures alloc_fns { IfOk result (λ names. names.0 ≡ listed settings.now.alloc_fns.now) }
    ensures ignore_fns { IfOk result (λ names. names.1 ≡ listed settings.now.ignore_fns.now) }
{
    let alloc_fns = names_of(alloc, settings.alloc_fns.as_bytes())?;
    let ignore_fns = names_of(alloc, settings.ignore_fns.as_bytes())?;
    Ok((alloc_fns, ignore_fns))
}
