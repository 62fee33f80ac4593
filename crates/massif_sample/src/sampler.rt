//! The sampler: it follows the events of a trace beside a ledger, and takes Massif's snapshots of it.
//! How one event is taken is in `taking`, and what a profile says in `profile`.
ghost use Rattle.std.specs.Prelude.{◌≡◌, ◌≤◌, true, length, Err, IfOk, IsErr, OnOk};
ghost use Rattle.massif_sample.specs.declared.fault.SampleFault.TheVariants.{NoMemory as OutOfMemory};
ghost use Rattle.massif_sample.specs.Options.{AreInRange};
ghost use Rattle.massif_sample.specs.SamplerCalls.{CanFollow, Follows, GoesOn, IsNew, IsProfileOf, IsTreeDue, Judges, JudgesOne, LeavesSampler};
ghost use Rattle.massif_sample.specs.Taking.{TellsFault};

use crate::fault::SampleFault;
use crate::offering::sample;
use crate::options::MassifOptions;
use crate::samples::Samples;
use crate::stacks::Stacks;
use crate::taking::take_event;
use cost_tree::FrameTest;
use hp_num::NoMemory;
use ht_trace::{FrameAt, Tables};
use live_ledger::{Event, Ledger};
use massif_file::Profile;
use massif_tree::is_ignored;
use std::alloc::Global;

/// Takes the snapshots of a trace while its events pass: it stands for the list of events that it was given, with the
/// tables of their stacks.
///
/// `alloc_fns` are the functions that stacks are shown without where they are innermost, and a stack whose innermost
/// other function is one of `ignore_fns` is ignored. What is said of the names that closures mean holds for every list
/// of names that they state.
#[derive(Drop)]
pub struct Sampler<A: Fn(&[u8]) -> bool, I: Fn(&[u8]) -> bool> {
    judged: Vec<bool>,
    frames: Vec<FrameAt>,
    samples: Samples,
    alloc_fns: FrameTest<A>,
    ignore_fns: FrameTest<I>,
}

impl<A: Fn(&[u8]) -> bool, I: Fn(&[u8]) -> bool> Sampler<A, I> {
    /// A sampler before any event, which has the snapshot of this moment and has taken account of the stacks of the tables.
    /// `NoMemory` where memory is wanting.
    pub fn new(
        alloc: Global,
        options: MassifOptions,
        alloc_fns: FrameTest<A>,
        ignore_fns: FrameTest<I>,
        tables: &Tables,
    ) -> Result<Sampler<A, I>, NoMemory>
        requires options { AreInRange options }
        requires alloc_callable { A.IsAlwaysCallable alloc_fns.test }
        requires ignore_callable { I.IsAlwaysCallable ignore_fns.test }
        ensures { IfOk result (IsNew A.Fn I.Fn options tables.now alloc_fns ignore_fns) }
    {
        let judged = judge_stacks(alloc, tables, &alloc_fns, &ignore_fns)?;
        let mut samples = Samples::new(alloc, options, tables.stacks())?;
        let stacks = Stacks {
            judged: &judged,
            tables,
            skipped: &alloc_fns,
        };
        sample(&mut samples, &stacks, false, &|_stack: u32| 0)?;
        Ok(Sampler {
            judged,
            frames: Vec::new(alloc),
            samples,
            alloc_fns,
            ignore_fns,
        })
    }

    /// Takes account of the next stack of the tables, of which there must be one. On `NoMemory` the sampler is as before.
    pub fn stack(&mut self, tables: &Tables) -> Result<(), NoMemory>
        requires next { length self.old.judged.items ≤ length tables.now.nodes }
        requires alloc_callable { A.IsAlwaysCallable self.old.alloc_fns.test }
        requires ignore_callable { I.IsAlwaysCallable self.old.ignore_fns.test }
        ensures stands { OnOk result (GoesOn A.Fn I.Fn tables.now self.old self.new) }
        ensures judges { JudgesOne self.old self.new result }
    {
        // Says how many stacks there may be.
        let _stacks = tables.stacks();
        let stack = self.judged.len() as u32;
        let ignored = is_ignored(
            tables,
            stack,
            &self.alloc_fns,
            &self.ignore_fns,
            &mut self.frames,
        )?;
        self.samples.make_room()?;
        self.judged.push(ignored)?;
        Ok(())
    }

    /// Applies the event to the ledger and takes the snapshots that are due: where the event is counted, the peak before a
    /// free, and the normal one behind it.
    ///
    /// The ledger stands for the same events as the sampler. What the event must be is as in `Ledger::apply`. All stacks of
    /// the tables were taken account of, and the ledger holds as many. `FreeOfNothing` and `CostTooLarge` come exactly where
    /// the event has that fault; sampler and ledger are then as before. `NoMemory` comes only where a detailed snapshot or a
    /// peak is due, and then for every later event. The ledger has then taken that first event or not.
    #[inline(always)]
    pub fn event(
        &mut self,
        event: Event,
        ledger: &mut Ledger,
        tables: &Tables,
    ) -> Result<(), SampleFault>
        requires event { CanFollow self.old tables.now ledger.old event }
        requires callable { A.IsAlwaysCallable self.old.alloc_fns.test }
        ensures stands { OnOk result
            (Follows A.Fn I.Fn tables.now ledger.old event self.old self.new) }
        ensures fault { TellsFault self.old.judged.items tables.now ledger.old event
            self.old.samples result }
        ensures due { result ≡ Err OutOfMemory
            → IsTreeDue A.Fn I.Fn tables.now ledger.old event self.old }
        ensures left { LeavesSampler self.old self.new ledger.old ledger.new event result }
    {
        if self.samples.has_failed() {
            return Err(SampleFault::NoMemory);
        }
        let stacks = Stacks {
            judged: &self.judged,
            tables,
            skipped: &self.alloc_fns,
        };
        match take_event(&mut self.samples, &stacks, event, ledger) {
            Ok(()) => Ok(()),
            Err(SampleFault::FreeOfNothing) => Err(SampleFault::FreeOfNothing),
            Err(SampleFault::CostTooLarge) => Err(SampleFault::CostTooLarge),
            Err(SampleFault::NoMemory) => {
                self.samples.fail();
                Err(SampleFault::NoMemory)
            }
        }
    }

    /// The profile of the events, with the command of a trace, which is empty where the trace has none. `NoMemory` where
    /// memory is wanting, and always after an `event` that answered it.
    pub fn finish(self, cmd: &[u8]) -> Result<Profile, NoMemory>
        ensures profile { IfOk result (IsProfileOf self cmd.now) }
        ensures failed { self.samples.failed ≡ true → IsErr result }
    {
        let Sampler { samples, .. } = self;
        samples.into_profile(cmd)
    }
}

/// For each stack of the tables whether it's ignored.
fn judge_stacks<A: Fn(&[u8]) -> bool, I: Fn(&[u8]) -> bool>(
    alloc: Global,
    tables: &Tables,
    alloc_fns: &FrameTest<A>,
    ignore_fns: &FrameTest<I>,
) -> Result<Vec<bool>, NoMemory>
    requires alloc_callable { A.IsAlwaysCallable alloc_fns.now.test }
    requires ignore_callable { I.IsAlwaysCallable ignore_fns.now.test }
    ensures { IfOk result
        (λ judged. Judges A.Fn I.Fn alloc_fns.now ignore_fns.now tables.now judged.items) }
{
    let mut frames = Vec::new(alloc);
    let mut judged = Vec::with_capacity(alloc, tables.stacks() as usize)?;
    'each_stack: for stack in 0..tables.stacks() {
        judged.push(is_ignored(tables, stack, alloc_fns, ignore_fns, &mut frames)?)?;
    }
    Ok(judged)
}
