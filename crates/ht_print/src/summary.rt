//! The summary of a trace as text: six lines of figures, a format of this project's own.
#![tactic(auto, using(hp_num::proofs::Laws::extends_same, hp_num::proofs::Laws::extends_more, hp_num::proofs::Laws::extends_trans))]

ghost use Rattle.std.specs.Prelude.{◌≡◌, OnErr};
ghost use Rattle.hp_num.specs.Extends.{Extends};
ghost use Rattle.peak_costs.specs.Peak.{StandsFor};
ghost use Rattle.peak_costs.specs.PeakTotals as peak_totals;
ghost use Rattle.ht_print.specs.Appends.{Appends, AppendsFor};
ghost use Rattle.ht_print.specs.SummaryText.{IsSummaryOf, count_lines, figure, live_lines, summary_lines, summary_text};

use hp_num::{NoMemory, put_bytes, put_dec};
use live_ledger::Totals;
use peak_costs::{PeakTotals, Peaks};

/// The figures of a whole trace.
#[derive(Clone, Copy)]
struct Summary {
    totals: Totals,
    /// The greatest total, in bytes.
    peak: u64,
    /// The first number of events after which it was reached.
    moment: u64,
}

/// Appends the six lines to `out`: events, calls, temporary allocations, allocated bytes, the peak in bytes with its moment
/// in events, and the bytes and blocks that are live at the end. On `NoMemory`, `out` holds what it held before.
pub fn put_summary(peaks: &Peaks, out: &mut Vec<u8>) -> Result<(), NoMemory>
    ensures appended { AppendsFor (StandsFor peaks.now) summary_text out.old out.new result }
    ensures unchanged { OnErr result (out.new.items ≡ out.old.items) }
{
    Summary::of_peaks(peaks).put(out)
}

/// Appends the six lines of a trace of which the totals with their peak alone were kept, as `put_summary` does. On
/// `NoMemory`, `out` holds what it held before.
pub fn put_totals_summary(totals: &PeakTotals, out: &mut Vec<u8>) -> Result<(), NoMemory>
    ensures appended { AppendsFor (peak_totals.StandsFor totals.now) summary_text out.old out.new result }
    ensures unchanged { OnErr result (out.new.items ≡ out.old.items) }
{
    Summary::of_totals(totals).put(out)
}

impl Summary {
    /// The figures of the trace whose peaks these are.
    fn of_peaks(peaks: &Peaks) -> Summary
        ensures { IsSummaryOf (StandsFor peaks.now) result }
    {
        Summary {
            totals: peaks.ledger().totals(),
            peak: peaks.peak_total(),
            moment: peaks.peak_moment(),
        }
    }

    /// The figures of the trace whose totals these are.
    fn of_totals(totals: &PeakTotals) -> Summary
        ensures { IsSummaryOf (peak_totals.StandsFor totals.now) result }
    {
        Summary {
            totals: totals.ledger().totals(),
            peak: totals.peak_total(),
            moment: totals.peak_moment(),
        }
    }

    /// Appends the six lines. On `NoMemory`, `out` holds what it held before.
    fn put(&self, out: &mut Vec<u8>) -> Result<(), NoMemory>
        ensures appended { Appends (summary_lines self.now) out.old out.new result }
        ensures unchanged { OnErr result (out.new.items ≡ out.old.items) }
    {
        let before = out.len();
        let put = self.put_lines(out);
        if put.is_err() {
            out.truncate(before);
        }
        put
    }

    /// Appends the six lines.
    fn put_lines(&self, out: &mut Vec<u8>) -> Result<(), NoMemory>
        ensures kept { Extends out.old.items out.new.items }
        ensures appended { Appends (summary_lines self.now) out.old out.new result }
    {
        self.put_counts(out)?;
        self.put_live(out)
    }

    /// Appends the lines of what was counted.
    #[tactic(auto, unfolding(crate::specs::SummaryText::count_lines))]
    fn put_counts(&self, out: &mut Vec<u8>) -> Result<(), NoMemory>
        ensures kept { Extends out.old.items out.new.items }
        ensures appended { Appends (count_lines self.now) out.old out.new result }
    {
        put_figure(out, b"events: ", self.totals.events)?;
        put_figure(out, b"\ncalls: ", self.totals.calls)?;
        put_figure(out, b"\ntemporary: ", self.totals.temporary)?;
        put_figure(out, b"\nallocated: ", self.totals.allocated)
    }

    /// Appends the lines of what was live at the peak and is live at the end.
    #[tactic(auto, unfolding(crate::specs::SummaryText::live_lines))]
    fn put_live(&self, out: &mut Vec<u8>) -> Result<(), NoMemory>
        ensures kept { Extends out.old.items out.new.items }
        ensures appended { Appends (live_lines self.now) out.old out.new result }
    {
        put_figure(out, b"\npeak: ", self.peak)?;
        put_figure(out, b" at event ", self.moment)?;
        put_figure(out, b"\nleaked: ", self.totals.live)?;
        put_figure(out, b" in ", self.totals.blocks)?;
        put_bytes(out, b" blocks\n")
    }
}

/// Appends a label and a figure.
fn put_figure(out: &mut Vec<u8>, label: &[u8], n: u64) -> Result<(), NoMemory>
    ensures kept { Extends out.old.items out.new.items }
    ensures appended { Appends (figure label.now n) out.old out.new result }
{
    put_bytes(out, label)?;
    put_dec(out, n)
}
