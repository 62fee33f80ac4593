//! A ledger and a sampler, as what follows a trace.
ghost use Rattle.std.specs.Prelude.{◌≡◌, IfOk, IsSome, [], None};
ghost use Rattle.std.specs.Fn.{FnReturnsAt};
ghost use Rattle.ht_trace.specs.StandsFor.{StandsFor};
ghost use Rattle.ht_trace.specs.TableState.{TableState};
ghost use Rattle.massif_sample.specs.FunctionNames.{AreStated};
ghost use Rattle.massif_sample.specs.MassifSettings.{MassifSettings};
ghost use Rattle.massif_sample.specs.Options.{AreInRange};
ghost use Rattle.trace_profiles.specs.SamplingView.{sampling_view};
ghost use Rattle.trace_reading.specs.Following.{IsNew};

use command_frame::LineRefusal;
use cost_tree::FrameTest;
use hp_num::NoMemory;
use ht_trace::Tables;
use live_ledger::{Event, EventFault, Ledger, TotalsLedger};
use massif_sample::{MassifOptions, SampleFault, Sampler, sampling_goes_on};
use std::alloc::Global;
use std::marker::{Brand, PhantomData};
use trace_reading::Follower;

/// What says which settings a profile is made with, for proofs: a program carries nothing of it.
pub trait Settled {
    /// The options, and the names that are meant.
    ghost settings: { MassifSettings };
}

impl Settled for Brand {
    ghost use Rattle.trace_profiles.specs.SamplingView.{no_settings};

    ghost settings = { no_settings };
}

/// A ledger, and a sampler that takes the snapshots of its events by the settings that `T` says.
#[derive(Drop)]
pub struct Sampling<A: Fn(&[u8]) -> bool, I: Fn(&[u8]) -> bool, T: Settled> {
    ledger: Ledger,
    /// It is let go where memory was wanting for a snapshot.
    sampler: Option<Sampler<A, I>>,
    settled: PhantomData<T>,
}

impl<A: Fn(&[u8]) -> bool, I: Fn(&[u8]) -> bool, T: Settled> Sampling<A, I, T> {
    /// What has followed nothing. The closures mean the names of the settings. `NoMemory` where memory is wanting.
    pub fn new(
        alloc: Global,
        options: MassifOptions,
        alloc_fns: FrameTest<A>,
        ignore_fns: FrameTest<I>,
    ) -> Result<Sampling<A, I, T>, NoMemory>
        requires options { AreInRange options }
        requires settled { T.settings.options ≡ options }
        requires alloc_callable { A.IsAlwaysCallable alloc_fns.test }
        requires ignore_callable { I.IsAlwaysCallable ignore_fns.test }
        requires stated { AreStated (FnReturnsAt A.Fn alloc_fns.test)
            (FnReturnsAt I.Fn ignore_fns.test) T.settings.names }
        ensures sampler { IfOk result (λ sampling. IsSome sampling.sampler) }
        ensures fresh { IfOk result
            (λ sampling. (tables : TableState) → StandsFor tables []
            → IsNew tables (sampling_view T.settings
            (λ alloc_fns ignore_fns. A.IsAlwaysCallable alloc_fns.test
            × I.IsAlwaysCallable ignore_fns.test × AreStated (FnReturnsAt A.Fn alloc_fns.test)
            (FnReturnsAt I.Fn ignore_fns.test) T.settings.names)
            sampling.ledger sampling.sampler)) }
    {
        let ledger = Ledger::new(alloc)?;
        let tables = Tables::new(alloc);
        let made = Sampler::new(alloc, options, alloc_fns, ignore_fns, &tables);
        drop(tables);
        let Ok(sampler) = made else {
            drop(ledger);
            return Err(NoMemory);
        };
        Ok(Sampling {
            ledger,
            sampler: Some(sampler),
            settled: PhantomData,
        })
    }

    /// Its sampler, where no memory was wanting for a snapshot.
    pub fn into_sampler(self) -> Option<Sampler<A, I>>
        ensures { result ≡ self.sampler }
    {
        let Sampling {
            ledger,
            sampler,
            ..
        } = self;
        drop(ledger);
        sampler
    }

    /// Lets the sampler go.
    /// A sampler that is let go in the body of the loop over events takes room there, which each event would clear.
    #[inline(never)]
    fn let_go(&mut self)
        ensures ledger { self.new.ledger ≡ self.old.ledger }
        ensures sampler { self.new.sampler ≡ None }
    {
        self.sampler = None;
    }
}

impl<A: Fn(&[u8]) -> bool, I: Fn(&[u8]) -> bool, T: Settled> Follower for Sampling<A, I, T> {
    ghost use Rattle.trace_profiles.specs.MassifReport.{sampler_faults};

    ghost view = { λ sampling.
        sampling_view T.settings
        (λ alloc_fns ignore_fns. A.IsAlwaysCallable alloc_fns.test
        × I.IsAlwaysCallable ignore_fns.test × AreStated (FnReturnsAt A.Fn alloc_fns.test)
        (FnReturnsAt I.Fn ignore_fns.test) T.settings.names)
        sampling.ledger sampling.sampler };

    ghost faults = { sampler_faults T.settings };

    #[inline(always)]
    fn ledger(&self) -> &TotalsLedger {
        self.ledger.whole()
    }

    fn goes_on(&self) {
        sampling_goes_on();
    }

    fn close(self) {
        let Sampling { ledger, .. } = self;
        drop(ledger);
    }

    fn stack(&mut self, tables: &Tables) -> Result<(), NoMemory> {
        let Some(sampler) = &mut self.sampler else {
            return Err(NoMemory);
        };
        match self.ledger.grow_stack() {
            Ok(_) => match sampler.stack(tables) {
                Ok(()) => Ok(()),
                Err(error) => Err(error),
            },
            Err(error) => Err(error),
        }
    }

    fn info(&mut self, stack: u32, size: u64, _tables: &Tables) -> Result<(), NoMemory> {
        match self.ledger.grow_info(stack, size) {
            Ok(_) => Ok(()),
            Err(error) => Err(error),
        }
    }

    /// Where memory is wanting for a snapshot, the event has no fault: it is taken, and the sampler let go, so that no later
    /// event is taken and no profile is given.
    #[inline(always)]
    fn event(&mut self, event: Event, tables: &Tables) -> Result<(), LineRefusal<EventFault>> {
        let Some(sampler) = &mut self.sampler else {
            return Err(LineRefusal::NoMemory);
        };
        match sampler.event(event, &mut self.ledger, tables) {
            Ok(()) => Ok(()),
            Err(SampleFault::FreeOfNothing) => Err(LineRefusal::Fault(EventFault::FreeOfNothing)),
            Err(SampleFault::CostTooLarge) => Err(LineRefusal::Fault(EventFault::CostTooLarge)),
            Err(SampleFault::NoMemory) => {
                self.let_go();
                Ok(())
            }
        }
    }
}
