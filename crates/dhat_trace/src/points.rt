//! The stacks that have a point, which are those that allocated, and the figures of each.
ghost use Rattle.std.specs.Prelude.{◌≡◌, ◌<◌, IfOk, OnOk, length};
ghost use Rattle.dhat_trace.specs.Points.{AddsCalled, called_by};
ghost use Rattle.dhat_trace.specs.PointFigures as figures_spec;

use dhat_json::Life;
use dhat_metrics::Lifetimes;
use hp_num::NoMemory;
use peak_costs::Peaks;
use std::alloc::Global;

/// The figures of a stack as a point tells them.
#[derive(Clone, Copy)]
pub(crate) struct PointFigures {
    pub(crate) tb: u64,
    pub(crate) tbk: u64,
    pub(crate) life: Life,
}

/// A stack that allocated.
#[derive(Clone, Copy)]
pub(crate) struct CalledStack {
    pub(crate) stack: u32,
    pub(crate) figures: PointFigures,
}

/// All stacks that allocated, by ascending number, or `NoMemory`.
pub(crate) fn called_stacks(
    alloc: Global,
    peaks: &Peaks,
    lifetimes: &Lifetimes,
) -> Result<Vec<CalledStack>, NoMemory>
    requires lifetimes { length lifetimes.now.figures ≡ peaks.now.ledger.stacks }
    ensures { IfOk result (λ stacks. stacks.items ≡ called_by peaks.now lifetimes.now) }
{
    let mut stacks = Vec::new(alloc);
    'each_stack: for stack in 0..peaks.ledger().stacks() {
        let figures = figures_of(peaks, lifetimes, stack);
        add_stack(stack, figures, &mut stacks)?;
    }
    Ok(stacks)
}

/// Appends the stack, where it allocated.
fn add_stack(
    stack: u32,
    figures: PointFigures,
    stacks: &mut Vec<CalledStack>,
) -> Result<(), NoMemory>
    ensures { OnOk result (AddsCalled stack figures stacks.old.items stacks.new.items) }
{
    if figures.tbk == 0 {
        return Ok(());
    }
    stacks.push(CalledStack { stack, figures })?;
    Ok(())
}

/// What the ledger, its peaks and the lifetimes tell of the stack.
fn figures_of(peaks: &Peaks, lifetimes: &Lifetimes, stack: u32) -> PointFigures
    requires held { stack < peaks.now.ledger.stacks }
    requires lifetimes { stack < length lifetimes.now.figures }
    ensures { result ≡ figures_spec.figures_of peaks.now lifetimes.now stack }
{
    let ledger = peaks.ledger().stack(stack);
    let life = lifetimes.figures(stack);
    PointFigures {
        tb: ledger.allocated,
        tbk: ledger.calls,
        life: Life {
            tl: life.tl,
            mb: life.mb,
            mbk: life.mbk,
            gb: peaks.peak_of(stack),
            gbk: peaks.peak_blocks_of(stack),
            eb: ledger.live,
            ebk: ledger.blocks,
        },
    }
}
