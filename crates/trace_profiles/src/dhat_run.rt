//! A whole run over one trace, whose DHAT profile is written.
ghost use Rattle.std.specs.Prelude.{◌^◌, ◌<◌, [], ◌∷◌};
ghost use Rattle.command_frame.specs.RunsTo.{Runs};
ghost use Rattle.trace_profiles.specs.DhatReport.{dhat_plan};

use crate::peaks_with_lifetimes::PeaksWithLifetimes;
use command_frame::{Halt, RunContext};
use dhat_trace::trace_profile_text;
use hp_num::NoMemory;
use hp_outside::{Sink, Store};
use ht_trace::Tables;
use std::alloc::Global;
use trace_reading::{TraceWriter, run_followed};

/// Writes the profile and a line feed.
#[derive(Clone, Copy)]
pub struct DhatWriter;

impl TraceWriter<PeaksWithLifetimes> for DhatWriter {
    ghost use Rattle.trace_profiles.specs.DhatReport.{dhat_written};

    type Rest = Vec<u8>;

    ghost text = { λ _. dhat_written };

    fn write(
        &self,
        alloc: Global,
        tables: Tables,
        lives: PeaksWithLifetimes,
    ) -> Result<Vec<u8>, NoMemory> {
        let PeaksWithLifetimes { peaks, lifetimes } = lives;
        let text = trace_profile_text(alloc, tables, peaks, lifetimes)?;
        let mut output = text.into_bytes();
        output.push(b'\n')?;
        Ok(output)
    }
}

/// Reads the named trace, and gives its profile and a line feed.
pub fn run_dhat<S: Store, O: Sink>(
    context: &RunContext,
    name: &str,
    store: &mut S,
    out: &mut O,
) -> Result<Vec<u8>, Halt>
    requires { S.opens store.old < 2 ^ 63 }
    ensures { Runs S.Store O.Sink context.now (name.now ∷ []) (dhat_plan name.now)
        store.old store.new out.old out.new result }
{
    let lives = PeaksWithLifetimes::new(context.alloc)?;
    run_followed(context, name, lives, DhatWriter, store, out)
}
