//! The snapshots that are kept of a trace, with the figures that the next one would have.
//! What a tree says, and which stacks are ignored, are no part of it.
ghost use Rattle.std.specs.Prelude.{◌≡◌, ℕ, ◌+◌, ◌^◌, ◌<◌, true, length, IfNone, IfOk, IfSome, IsErr, OnOk};
ghost use Rattle.cost_history.specs.HistoryState.{IsRoomy, TellsNow, no_history};
ghost use Rattle.massif_cull.specs.ArrayState as array;
ghost use Rattle.massif_sample.specs.Made.{AreMadeOf, IsMadeOf};
ghost use Rattle.massif_sample.specs.Options.{AreInRange, tree_options};
ghost use Rattle.massif_sample.specs.Running.{CanCount, Follows, passes_most, with_event};
ghost use Rattle.massif_sample.specs.SamplesCalls.{AreBehind, AreNew, CanOffer, EndsAtStacks, HasFewChanges, HasFrontsWithin, IsJudged, KeepsCosts, MovesTo, StandStill, StandStillFor, TakesSnapshot, judged_as, passed_by, with_changes};
ghost use Rattle.massif_sample.specs.SamplesState.{IsSound};
ghost use Rattle.massif_sample.specs.View.{offer_of};

use crate::load::Load;
use crate::options::MassifOptions;
use crate::profile::{description, shown_command, take_snaps};
use crate::running::Running;
use crate::tree_places::tree_places;
use cost_history::CostHistory;
use cost_tree::FrameTest;
use hp_num::NoMemory;
use ht_trace::Tables;
use live_ledger::Event;
use massif_cull::{Offer, SnapArray, Taken};
use massif_file::{Profile, Snaps};
use massif_tree::{TreeOptions, add_trimmed};
use stack_trees::CallChains;
use std::alloc::Global;
use std::marker::Model;

/// The snapshots of a trace so far, the figures of the place behind its last event, and what the next tree is built of.
#[derive(Drop)]
pub(crate) struct Samples {
    options: MassifOptions,
    running: Running,
    array: SnapArray<Load>,
    failed: bool,
    /// The first texts of the stacks, as they are trimmed: of all that there were when the last tree was due.
    fronts: CallChains,
    /// What stacks cost at the places of the snapshots that have a tree.
    history: CostHistory,
    alloc: Global,
}

impl Model for Samples {
    ghost use Rattle.massif_sample.specs.SamplesState.{SamplesState, IsSound};
    ghost use Rattle.massif_sample.specs.View.{state_of};

    ghost Value = { SamplesState };

    ghost view = { λ samples.
        state_of samples.options samples.running samples.array samples.failed samples.fronts
        samples.history };

    ghost invariant = { λ samples.
        IsSound (state_of samples.options samples.running samples.array samples.failed
        samples.fronts samples.history) };
}

impl Samples {
    /// No snapshot, before any event, with room for the marks of so many stacks.
    pub(crate) fn new(
        alloc: Global,
        options: MassifOptions,
        stacks: u32,
    ) -> Result<Samples, NoMemory>
        requires options { AreInRange options }
        ensures { IfOk result (AreNew options) }
    {
        let array = SnapArray::new(
            alloc,
            options.max_snapshots,
            options.detailed_freq,
            options.inaccuracy,
        )?;
        let history = history_for(alloc, stacks)?;
        Ok(Samples {
            options,
            running: Running::new(),
            array,
            failed: false,
            fronts: CallChains::new(alloc),
            history,
            alloc,
        })
    }

    /// What is asked of a tree.
    pub(crate) fn tree_options(&self) -> TreeOptions
        ensures { result ≡ tree_options self.now.options }
    {
        TreeOptions {
            threshold: self.options.threshold,
            depth: self.options.depth,
        }
    }

    /// Whether memory was wanting for a snapshot.
    pub(crate) fn has_failed(&self) -> bool
        ensures failed { result ≡ self.now.failed }
        ensures range { AreInRange self.now.options }
    {
        self.failed
    }

    /// Keeps that memory was wanting for a snapshot.
    pub(crate) fn fail(&mut self)
        ensures { self.new ≡ record self.old { failed = true } }
    {
        self.failed = true;
    }

    /// The offer of a snapshot of the present place.
    #[inline(always)]
    fn offer(&self, as_peak: bool) -> Offer
        ensures exact { result ≡ offer_of self.now.running as_peak }
        ensures time { result.time ≡ self.now.running.time }
        ensures total { result.total ≡ self.now.running.gross }
        ensures peak { result.peak ≡ as_peak }
    {
        Offer {
            place: self.running.place,
            time: self.running.time,
            total: self.running.gross,
            peak: as_peak,
        }
    }

    /// As what a snapshot of the present place would be taken, as a peak or not. Nearly every one is refused, by one test.
    #[inline(always)]
    pub(crate) fn judge(&self, as_peak: bool) -> Taken
        requires { CanOffer as_peak self.now }
        ensures { IsJudged self.now as_peak result }
    {
        let offer = self.offer(as_peak);
        self.array.judge(&offer)
    }

    /// Makes the texts of the stacks that came since the last tree was due. After `NoMemory` no tree may be built.
    pub(crate) fn add_fronts<A: Fn(&[u8]) -> bool>(
        &mut self,
        tables: &Tables,
        alloc_fns: &FrameTest<A>,
    ) -> Result<(), NoMemory>
        requires held { HasFrontsWithin tables.now self.old }
        requires callable { A.IsAlwaysCallable alloc_fns.now.test }
        ensures samples { self.new ≡ record self.old { fronts = self.new.fronts } }
        ensures count { OnOk result (length self.new.fronts ≡ length tables.now.nodes + 1) }
        ensures sampling { OnOk result
            (StandStillFor A.Fn alloc_fns.now tables.now self.old self.new) }
    {
        if self.fronts.len() == tables.stacks() {
            return Ok(());
        }
        let options = self.tree_options();
        add_trimmed(self.alloc, tables, alloc_fns, &options, &mut self.fronts)
    }

    /// Keeps what so many stacks cost at the present place, each of which has its texts: of those that are marked the closure
    /// is asked. `NoMemory` where memory is wanting.
    pub(crate) fn keep<F: Fn(u32) -> u64>(&mut self, stacks: u32, cost: &F) -> Result<(), NoMemory>
        requires callable { (stack : ℕ) → stack < stacks → F.pre cost.now stack }
        requires fronts { stacks ≡ length self.old.fronts }
        ensures samples { self.new ≡ record self.old { history = self.new.history } }
        ensures kept { OnOk result (KeepsCosts (F.post cost.now) stacks self.old self.new) }
        ensures few { OnOk result (HasFewChanges self.old.history self.new.history stacks) }
    {
        self.thin()?;
        self.history.keep(self.running.place, stacks, cost)?;
        Ok(())
    }

    /// Takes out the costs that no snapshot shows any more, where there are enough of them. On `NoMemory` nothing is taken out.
    fn thin(&mut self) -> Result<(), NoMemory>
        ensures samples { self.new
            ≡ with_changes self.old self.new.history.changes self.new.history.left }
        ensures roomy { OnOk result (IsRoomy self.new.history) }
        ensures tells { (costs : ℕ → ℕ) → TellsNow self.old.history costs
            → TellsNow self.new.history costs }
        ensures sampling { StandStill self.old self.new }
    {
        if !self.history.is_crowded() {
            return Ok(());
        }
        let mut places = tree_places(self.alloc, &self.array)?;
        self.history.thin(&mut places);
        Ok(())
    }

    /// Takes a snapshot of the present place, as a peak or not, as what it is judged to be. Where that isn't a normal one, what
    /// stacks cost here was kept.
    pub(crate) fn take(&mut self, as_peak: bool, taken: Taken)
        requires offer { CanOffer as_peak self.old }
        requires judged { taken ≡ judged_as self.old as_peak }
        ensures samples { self.new ≡ record self.old { array = self.new.array } }
        ensures some { 0 < length self.new.array.kept.entries }
        ensures sampling { TakesSnapshot taken as_peak self.old self.new }
    {
        let offer = self.offer(as_peak);
        let load = Load {
            heap: self.running.heap,
            extra: self.running.gross - self.running.heap,
        };
        self.array.take(offer, taken, load);
    }

    /// The figures behind an event that is counted, or `None` where one of them passes 2^62.
    #[inline(always)]
    pub(crate) fn behind(&self, event: Event) -> Option<Running>
        requires place { self.now.running.place < 2 ^ 32 }
        requires within { CanCount self.now.options self.now.running event }
        ensures next { IfSome result (AreBehind self.now event) }
        ensures none { IfNone result
            (passes_most (with_event self.now.options self.now.running event) ≡ true) }
    {
        self.running.with_event(&self.options, event).bounded()
    }

    /// Moves on to the place behind an event of the stack that is counted, which has these figures, and marks the stack.
    #[inline(always)]
    pub(crate) fn move_to(&mut self, next: Running, stack: u32)
        requires follows { Follows self.old.options self.old.running next }
        ensures samples { self.new
            ≡ record self.old { running = next; history = self.new.history } }
        ensures sampling { MovesTo next stack self.old self.new }
    {
        self.running = next;
        self.history.mark(stack);
    }

    /// Makes room for the mark of one more stack, or answers `NoMemory`.
    pub(crate) fn make_room(&mut self) -> Result<(), NoMemory>
        ensures { self.new ≡ self.old }
    {
        self.history.make_room()
    }

    /// Moves on behind an event that isn't counted.
    pub(crate) fn pass(&mut self, event: Event)
        requires place { self.old.running.place < 2 ^ 32 }
        ensures { self.new ≡ passed_by self.old event }
    {
        self.running = self.running.past_event(&self.options, event);
    }

    /// The profile of the snapshots, with the command that was profiled. `NoMemory` where memory is wanting, and where it was
    /// wanting for a snapshot.
    pub(crate) fn into_profile(self, cmd: &[u8]) -> Result<Profile, NoMemory>
        ensures failed { self.failed ≡ true → IsErr result }
        ensures profile { IfOk result (IsMadeOf self cmd.now) }
        ensures none { OnOk result (EndsAtStacks self.history) }
        ensures sound { IsSound self }
        ensures array { array.IsSound self.array }
    {
        if self.failed {
            return Err(NoMemory);
        }
        let alloc = self.alloc;
        let unit = self.options.unit;
        let snaps = self.into_snaps()?;
        let desc = description(alloc)?;
        let cmd = shown_command(alloc, cmd)?;
        Ok(Profile {
            desc,
            cmd,
            unit,
            snaps,
        })
    }

    /// The snapshots with the trees of their places, or `NoMemory`.
    fn into_snaps(self) -> Result<Snaps, NoMemory>
        ensures snaps { IfOk result (AreMadeOf self) }
        ensures none { OnOk result (EndsAtStacks self.history) }
        ensures sound { IsSound self }
        ensures array { array.IsSound self.array }
    {
        let asked = self.tree_options();
        let Samples {
            mut array,
            fronts,
            history,
            alloc,
            ..
        } = self;
        // Says what holds of every array.
        let _count = array.len();
        let mut replay = history.into_replay();
        take_snaps(alloc, &mut array, fronts, &mut replay, &asked)
    }
}

/// A history of no place, with room for the marks of so many stacks, or `NoMemory`.
fn history_for(alloc: Global, stacks: u32) -> Result<CostHistory, NoMemory>
    ensures { IfOk result (λ history. history.history ≡ no_history) }
{
    let mut history = CostHistory::new(alloc);
    for _ in 0..stacks {
        history.make_room()?;
    }
    Ok(history)
}
