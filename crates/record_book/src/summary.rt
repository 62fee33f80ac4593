//! The summary of a recording: six lines of figures. The trace is no part of it.
#![tactic(auto, using(hp_num::proofs::Laws::extends_same, hp_num::proofs::Laws::extends_more, hp_num::proofs::Laws::extends_trans))]

ghost use Rattle.std.specs.Prelude.{◌≡◌, ℕ, ◌^◌, ◌<◌, ◌≤◌, List, ◌++◌, length, IfOk, OnErr, OnOk};
ghost use Rattle.hp_num.specs.Extends.{Extends};
ghost use Rattle.record_scripts.specs.Events.{event_count};
ghost use Rattle.record_scripts.specs.ScriptTurns.{turn_said};
ghost use Rattle.record_book.specs.Actions.{actions};
ghost use Rattle.record_book.specs.BookState.{entries_of};
ghost use Rattle.record_book.specs.Figures.{own_peak};
ghost use Rattle.record_book.specs.Orders.{IsUnder};
ghost use Rattle.record_book.specs.SummaryText.{count_lines, figure, leaked_line, peak_line, rec_summary, summary_of, summary_text};
ghost use Rattle.record_book.specs.TallyState.{IsTally};

use crate::tally::Tally;
use hp_num::{NoMemory, put_bytes, put_dec};
use record_scripts::{ScriptLine, Scripts};
use std::alloc::Global;

/// The figures of scripts that are recorded in an order.
#[derive(Clone, Copy)]
pub struct Summary {
    pub threads: u64,
    pub events: u64,
    pub calls: u64,
    pub allocated: u64,
    /// What is live at the end, in bytes and in blocks.
    pub leaked: u64,
    pub blocks: u64,
    /// The greatest total of the order, the greatest peak of a script, and the sum of the scripts' peaks.
    pub peak: u64,
    pub low: u64,
    pub high: u64,
}

/// Appends the six lines of these scripts, recorded in this order: threads, events, calls, allocated bytes, what is live at
/// the end, and the peak with its bounds. On `NoMemory`, `out` holds what it held before.
pub fn put_summary(
    alloc: Global,
    job: &Scripts,
    order: &[u8],
    out: &mut Vec<u8>,
) -> Result<(), NoMemory>
    requires under { IsUnder job.now.scripts order.now }
    requires few { length order.now ≤ event_count job.now.scripts }
    ensures appended { OnOk result
        (out.new.items ≡ out.old.items ++ rec_summary job.now.scripts order.now) }
    ensures unchanged { OnErr result (out.new.items ≡ out.old.items) }
{
    let summary = Summary::of(alloc, job, order)?;
    let before = out.len();
    let put = summary.put(out);
    if put.is_err() {
        out.truncate(before);
    }
    put
}

impl Summary {
    /// The figures of these scripts, recorded in this order.
    fn of(alloc: Global, job: &Scripts, order: &[u8]) -> Result<Summary, NoMemory>
        requires under { IsUnder job.now.scripts order.now }
        requires few { length order.now ≤ event_count job.now.scripts }
        ensures { IfOk result (λ summary. summary ≡ summary_of job.now.scripts order.now) }
    {
        let tally = tally_order(alloc, job, order)?;
        let mut low: u64 = 0;
        let mut high: u64 = 0;
        for thread in 0..job.threads() {
            let own = peak_alone(alloc, job, thread)?;
            low = low.max(own);
            high += own;
        }
        Ok(Summary {
            threads: u64::from(job.threads()),
            events: order.len() as u64,
            calls: tally.calls,
            allocated: tally.allocated,
            leaked: tally.total,
            blocks: tally.blocks,
            peak: tally.peak,
            low,
            high,
        })
    }

    /// Appends the six lines.
    fn put(&self, out: &mut Vec<u8>) -> Result<(), NoMemory>
        ensures kept { Extends out.old.items out.new.items }
        ensures appended { OnOk result (out.new.items ≡ out.old.items ++ summary_text self.now) }
    {
        self.put_counts(out)?;
        self.put_leaked(out)?;
        self.put_peak(out)
    }

    /// Appends the lines of what was counted.
    #[tactic(auto, unfolding(crate::specs::SummaryText::count_lines), using(hp_num::proofs::Laws::extends_same, hp_num::proofs::Laws::extends_more, hp_num::proofs::Laws::extends_trans))]
    fn put_counts(&self, out: &mut Vec<u8>) -> Result<(), NoMemory>
        ensures kept { Extends out.old.items out.new.items }
        ensures appended { OnOk result (out.new.items ≡ out.old.items ++ count_lines self.now) }
    {
        put_figure(out, b"# threads: ", self.threads)?;
        put_figure(out, b"\n# events: ", self.events)?;
        put_figure(out, b"\n# calls: ", self.calls)?;
        put_figure(out, b"\n# allocated: ", self.allocated)
    }

    /// Appends the line of what is live at the end.
    #[tactic(auto, unfolding(crate::specs::SummaryText::leaked_line), using(hp_num::proofs::Laws::extends_same, hp_num::proofs::Laws::extends_more, hp_num::proofs::Laws::extends_trans))]
    fn put_leaked(&self, out: &mut Vec<u8>) -> Result<(), NoMemory>
        ensures kept { Extends out.old.items out.new.items }
        ensures appended { OnOk result (out.new.items ≡ out.old.items ++ leaked_line self.now) }
    {
        put_figure(out, b"\n# leaked: ", self.leaked)?;
        put_figure(out, b" in ", self.blocks)?;
        put_bytes(out, b" blocks\n")
    }

    /// Appends the line of the greatest total.
    #[tactic(auto, unfolding(crate::specs::SummaryText::peak_line), using(hp_num::proofs::Laws::extends_same, hp_num::proofs::Laws::extends_more, hp_num::proofs::Laws::extends_trans))]
    fn put_peak(&self, out: &mut Vec<u8>) -> Result<(), NoMemory>
        ensures kept { Extends out.old.items out.new.items }
        ensures appended { OnOk result (out.new.items ≡ out.old.items ++ peak_line self.now) }
    {
        put_figure(out, b"# peak: ", self.peak)?;
        put_figure(out, b" from ", self.low)?;
        put_figure(out, b" to ", self.high)?;
        put_bytes(out, b"\n")
    }
}

/// The figures of an order under the scripts.
fn tally_order(alloc: Global, job: &Scripts, order: &[u8]) -> Result<Tally, NoMemory>
    requires under { IsUnder job.now.scripts order.now }
    requires few { length order.now ≤ event_count job.now.scripts }
    ensures { IfOk result (λ tally. IsTally tally (actions job.now.scripts order.now)) }
{
    let mut tally = Tally::new(alloc);
    let mut done = vec![in alloc; 0; job.threads() as usize]?;
    let mut entry = 0;
    'entries: while entry < order.len() {
        let thread = order[entry] as u32;
        let place = done[thread as usize];
        let Some((turn, _node)) = job.turn(thread, place) else {
            unreachable!()
        };
        tally.take_turn(thread, turn)?;
        done[thread as usize] = place + 1;
        entry += entry_count(turn);
    }
    Ok(tally)
}

/// The peak of a thread's script, whose thread runs alone.
fn peak_alone(alloc: Global, job: &Scripts, thread: u32) -> Result<u64, NoMemory>
    requires { thread < length job.now.scripts }
    ensures peak { IfOk result (λ peak. peak ≡ own_peak job.now.scripts thread) }
    ensures few { IfOk result (λ peak. peak ≤ 2 ^ 56) }
{
    let mut tally = Tally::new(alloc);
    for place in 0..u32::MAX {
        let Some((turn, _node)) = job.turn(thread, place) else {
            return Ok(tally.peak);
        };
        tally.take_turn(thread, turn)?;
    }
    unreachable!()
}

/// How many entries a turn has in an order.
fn entry_count(turn: ScriptLine) -> usize
    ensures some { 1 ≤ result }
    ensures few { result ≤ 2 }
    ensures entries { (thread : ℕ) (ips : List ℕ)
        → result ≡ length (entries_of thread (turn_said turn ips)) }
{
    match turn {
        ScriptLine::Reallocation { .. } => 2,
        _ => 1,
    }
}

/// Appends a label and a figure.
fn put_figure(out: &mut Vec<u8>, label: &[u8], n: u64) -> Result<(), NoMemory>
    ensures kept { Extends out.old.items out.new.items }
    ensures appended { OnOk result (out.new.items ≡ out.old.items ++ figure label.now n) }
{
    put_bytes(out, label)?;
    put_dec(out, n)
}
