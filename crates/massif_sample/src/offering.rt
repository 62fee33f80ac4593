//! How a snapshot of the present place is offered, and what is kept of it where it is taken.
//! What a stack costs is said by a closure.
ghost use Rattle.std.specs.Prelude.{OnOk};
ghost use Rattle.massif_sample.specs.Offering.{CanSample, EachStack, HasOffered, IsDueAs, MakesOffer};

use crate::samples::Samples;
use crate::stacks::Stacks;
use hp_num::NoMemory;
use massif_cull::Taken;

/// Offers a snapshot of the present place, as a peak or not. Of one that has a tree it is kept what stacks cost here, by the
/// closure. `NoMemory`, where memory is wanting for that, leaves the samples unfit for more.
/// What is refused ends here, in the body of each caller.
#[inline(always)]
pub(crate) fn sample<A: Fn(&[u8]) -> bool, F: Fn(u32) -> u64>(
    samples: &mut Samples,
    stacks: &Stacks<A>,
    as_peak: bool,
    cost: &F,
) -> Result<(), NoMemory>
    requires offer { CanSample stacks.now as_peak samples.old }
    requires cost_callable { EachStack stacks.now (F.pre cost.now) }
    requires callable { A.IsAlwaysCallable stacks.now.skipped.now.test }
    ensures sampling { OnOk result
        (MakesOffer A.Fn stacks.now (F.post cost.now) as_peak samples.old samples.new) }
    ensures offered { HasOffered stacks.now as_peak samples.old samples.new result }
{
    let taken = samples.judge(as_peak);
    if taken == Taken::No {
        return Ok(());
    }
    take_due(samples, stacks, as_peak, taken, cost)
}

/// Takes a snapshot of the present place as what it is judged to be.
fn take_due<A: Fn(&[u8]) -> bool, F: Fn(u32) -> u64>(
    samples: &mut Samples,
    stacks: &Stacks<A>,
    as_peak: bool,
    taken: Taken,
    cost: &F,
) -> Result<(), NoMemory>
    requires offer { CanSample stacks.now as_peak samples.old }
    requires due { IsDueAs samples.old as_peak taken }
    requires cost_callable { EachStack stacks.now (F.pre cost.now) }
    requires callable { A.IsAlwaysCallable stacks.now.skipped.now.test }
    ensures sampling { OnOk result
        (MakesOffer A.Fn stacks.now (F.post cost.now) as_peak samples.old samples.new) }
    ensures offered { HasOffered stacks.now as_peak samples.old samples.new result }
{
    if taken == Taken::Normal {
        samples.take(as_peak, taken);
        return Ok(());
    }
    samples.add_fronts(stacks.tables, stacks.skipped)?;
    samples.keep(stacks.tables.stacks(), cost)?;
    samples.take(as_peak, taken);
    Ok(())
}
