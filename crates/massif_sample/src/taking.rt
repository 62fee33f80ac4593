//! How one event is taken: the peak before a free, the event, and the snapshot behind it.
//! Which faults an event has, and which stacks are ignored, is known here.
ghost use Rattle.std.specs.Prelude.{◌≡◌, ◌^◌, ◌<◌, true, false, None, Err, OnOk, OnErr};
ghost use Rattle.live_ledger.specs.Events.{is_free};
ghost use Rattle.live_ledger.specs.Faults.{fault_at};
ghost use Rattle.live_ledger.specs.LedgerState.{IsHeld};
ghost use Rattle.live_ledger.specs.Taken.{HasTaken};
ghost use Rattle.massif_sample.specs.declared.fault.SampleFault.TheVariants.{NoMemory as OutOfMemory};
ghost use Rattle.massif_sample.specs.Offering.{AreBeside, HasOffered, OffersPeak, OffersPlace};
ghost use Rattle.massif_sample.specs.SamplesCalls.{CanOffer, passed_by};
ghost use Rattle.massif_sample.specs.Taking.{CallsForTreeAt, CanAdvance, CanTakeEvent, CountsEvent, HasAdvanced, TakesEvent, TakesOrLeaves, TellsFault};

use crate::fault::SampleFault;
use crate::offering::sample;
use crate::running::Running;
use crate::samples::Samples;
use crate::stacks::{Stacks, counted_stack, live_cost};
use hp_num::NoMemory;
use live_ledger::{Event, Ledger, possible_weights};

/// Offers a snapshot of what the ledger has live.
#[inline(always)]
fn sample_ledger<A: Fn(&[u8]) -> bool>(
    samples: &mut Samples,
    stacks: &Stacks<A>,
    as_peak: bool,
    ledger: &Ledger,
) -> Result<(), NoMemory>
    requires offer { CanOffer as_peak samples.old }
    requires beside { AreBeside stacks.now samples.old ledger.now }
    requires callable { A.IsAlwaysCallable stacks.now.skipped.now.test }
    ensures sampling { OnOk result
        (OffersPlace A.Fn stacks.now ledger.now as_peak samples.old samples.new) }
    ensures offered { HasOffered stacks.now as_peak samples.old samples.new result }
{
    let judged = stacks.judged;
    let cost = |stack: u32| live_cost(judged, ledger, stack);
    sample(samples, stacks, as_peak, &cost)
}

/// Offers the peak before a free.
#[inline(always)]
fn sample_before<A: Fn(&[u8]) -> bool>(
    samples: &mut Samples,
    stacks: &Stacks<A>,
    event: Event,
    ledger: &Ledger,
) -> Result<(), NoMemory>
    requires offer { CanOffer true samples.old }
    requires beside { AreBeside stacks.now samples.old ledger.now }
    requires callable { A.IsAlwaysCallable stacks.now.skipped.now.test }
    ensures sampling { OnOk result
        (OffersPeak A.Fn stacks.now ledger.now event samples.old samples.new) }
    ensures free { OnErr result (is_free event ≡ true) }
    ensures offered { HasOffered stacks.now true samples.old samples.new result }
{
    match event {
        Event::Alloc { .. } => Ok(()),
        Event::Free { .. } => sample_ledger(samples, stacks, true, ledger),
        Event::Tick { .. } => Ok(()),
    }
}

/// Applies the event of the stack, which has no fault and is counted, to the ledger, and offers the snapshot behind it.
#[inline(always)]
fn advance<A: Fn(&[u8]) -> bool>(
    samples: &mut Samples,
    stacks: &Stacks<A>,
    event: Event,
    stack: u32,
    next: Running,
    ledger: &mut Ledger,
) -> Result<(), SampleFault>
    requires advance { CanAdvance stacks.now samples.old ledger.old event stack next }
    requires callable { A.IsAlwaysCallable stacks.now.skipped.now.test }
    ensures sampling { OnOk result
        (CountsEvent A.Fn stacks.now ledger.old event next samples.old samples.new) }
    ensures advanced { HasAdvanced stacks.now.tables.now samples.old samples.new event next
        result }
    ensures applied { HasTaken ledger.old ledger.new event }
{
    ledger.take(event);
    samples.move_to(next, stack);
    sample_ledger(samples, stacks, false, ledger)?;
    Ok(())
}

/// Applies the event, which has no fault and isn't counted, to the ledger.
#[inline(always)]
fn pass(samples: &mut Samples, event: Event, ledger: &mut Ledger)
    requires held { IsHeld ledger.old event }
    requires count { ledger.old.totals.events < 2 ^ 32 }
    requires no_fault { fault_at ledger.old event ≡ None }
    requires place { samples.old.running.place < 2 ^ 32 }
    ensures samples { samples.new ≡ passed_by samples.old event }
    ensures applied { HasTaken ledger.old ledger.new event }
{
    ledger.take(event);
    samples.pass(event);
}

/// Takes an event: applies it to the ledger and takes the snapshots that are due.
#[inline(always)]
pub(crate) fn take_event<A: Fn(&[u8]) -> bool>(
    samples: &mut Samples,
    stacks: &Stacks<A>,
    event: Event,
    ledger: &mut Ledger,
) -> Result<(), SampleFault>
    requires event { CanTakeEvent stacks.now samples.old ledger.old event }
    requires callable { A.IsAlwaysCallable stacks.now.skipped.now.test }
    ensures stands { OnOk result
        (TakesEvent A.Fn stacks.now ledger.old event samples.old samples.new) }
    ensures fault { TellsFault stacks.now.judged.now stacks.now.tables.now ledger.old event
        samples.old result }
    ensures due { result ≡ Err OutOfMemory
        → CallsForTreeAt A.Fn stacks.now ledger.old event samples.old }
    ensures taken { TakesOrLeaves samples.old samples.new ledger.old ledger.new event result }
{
    ledger.check(event)?;
    let Some(stack) = counted_stack(stacks.judged, event) else {
        pass(samples, event, ledger);
        return Ok(());
    };
    possible_weights();
    let Some(next) = samples.behind(event) else {
        return Err(SampleFault::CostTooLarge);
    };
    sample_before(samples, stacks, event, ledger)?;
    advance(samples, stacks, event, stack, next, ledger)
}
