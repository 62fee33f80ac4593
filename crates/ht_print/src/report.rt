//! Reports on a trace: the sections that are asked for, the histogram, and the summary.
//! How a section is written is in `section`.
#![tactic(auto, using(hp_num::proofs::Laws::extends_same, hp_num::proofs::Laws::extends_more, hp_num::proofs::Laws::extends_trans))]

ghost use Rattle.std.specs.Prelude.{◌≡◌, IfOk, OnErr};
ghost use Rattle.hp_num.specs.Extends.{Extends};
ghost use Rattle.ht_trace.specs.LedgerFits.{IsBeside};
ghost use Rattle.peak_costs.specs.Peak.{StandsFor};
ghost use Rattle.ht_print.specs.Appends.{Appends, AppendsFor};
ghost use Rattle.ht_print.specs.HasGroups.{has_groups};
ghost use Rattle.ht_print.specs.Layouts.{HasReportPlaces, HasSuppressed, wanted_histogram, wanted_section, wanted_sections};
ghost use Rattle.ht_print.specs.Places.{HavePlaces};
ghost use Rattle.ht_print.specs.ReportText.{AppendsReport};
ghost use Rattle.ht_print.specs.Suppressed.{suppressed_stacks};

use crate::costs::stack_costs;
use crate::histogram::put_histogram;
use crate::layout::Layout;
use crate::options::PrintOptions;
use crate::places::Places;
use crate::section::put_section;
use crate::sections::{SECTIONS, Section};
use crate::summary::put_summary;
use crate::suppressed::Suppressed;
use hp_num::NoMemory;
use ht_trace::Tables;
use peak_costs::Peaks;
use std::alloc::Global;

/// Appends the report on a trace: the sections that the options ask for, the histogram where they do, and the summary.
///
/// The peaks' ledger and the tables hold the same stacks and infos, and `suppressed` was built of these tables. On
/// `NoMemory`, `out` holds what it held before.
pub fn put_report(
    alloc: Global,
    options: &PrintOptions,
    tables: &Tables,
    peaks: &Peaks,
    suppressed: &Suppressed,
    out: &mut Vec<u8>,
) -> Result<(), NoMemory>
    requires beside { IsBeside tables.now peaks.now.ledger }
    requires suppressed { suppressed.now ≡ suppressed_stacks tables.now }
    ensures appended { AppendsReport options.now tables.now peaks.now out.old out.new result }
    ensures unchanged { OnErr result (out.new.items ≡ out.old.items) }
{
    let before = out.len();
    let put = put_parts(alloc, options, tables, peaks, suppressed, out);
    if put.is_err() {
        out.truncate(before);
    }
    put
}

/// Appends the report, or a part of it.
fn put_parts(
    alloc: Global,
    options: &PrintOptions,
    tables: &Tables,
    peaks: &Peaks,
    suppressed: &Suppressed,
    out: &mut Vec<u8>,
) -> Result<(), NoMemory>
    requires beside { IsBeside tables.now peaks.now.ledger }
    requires suppressed { suppressed.now ≡ suppressed_stacks tables.now }
    ensures appended { AppendsReport options.now tables.now peaks.now out.old out.new result }
    ensures kept { OnErr result (Extends out.old.items out.new.items) }
{
    // Says what holds of all peaks.
    let _total = peaks.peak_total();
    let places = wanted_places(alloc, options, tables)?;
    let layout = Layout {
        options: *options,
        tables,
        places: &places,
    };
    put_sections(alloc, &layout, &SECTIONS, peaks, suppressed, out)?;
    put_wanted_histogram(&layout, peaks, out)?;
    put_summary(peaks, out)
}

/// The places of the stacks where the report has groups of them, or `NoMemory`.
fn wanted_places(alloc: Global, options: &PrintOptions, tables: &Tables) -> Result<Places, NoMemory>
    ensures { IfOk result
        (λ places. HavePlaces (has_groups options.now) tables.now places) }
{
    if !options.has_groups() {
        return Ok(Places::none(alloc));
    }
    Places::of(alloc, tables)
}

/// Appends those of the sections that are asked for.
fn put_sections(
    alloc: Global,
    layout: &Layout<'_>,
    sections: &[Section],
    peaks: &Peaks,
    suppressed: &Suppressed,
    out: &mut Vec<u8>,
) -> Result<(), NoMemory>
    requires beside { IsBeside layout.now.tables.now peaks.now.ledger }
    requires places { HasReportPlaces layout.now }
    requires suppressed { HasSuppressed layout.now suppressed.now }
    ensures appended { Appends (wanted_sections layout.now peaks.now sections.now) out.old out.new
        result }
    ensures kept { Extends out.old.items out.new.items }
{
    'each_section: for section in sections {
        put_wanted_section(alloc, layout, *section, peaks, suppressed, out)?;
    }
    Ok(())
}

/// Appends a section, where it is asked for.
fn put_wanted_section(
    alloc: Global,
    layout: &Layout<'_>,
    section: Section,
    peaks: &Peaks,
    suppressed: &Suppressed,
    out: &mut Vec<u8>,
) -> Result<(), NoMemory>
    requires beside { IsBeside layout.now.tables.now peaks.now.ledger }
    requires places { HasReportPlaces layout.now }
    requires suppressed { HasSuppressed layout.now suppressed.now }
    ensures appended { Appends (wanted_section layout.now peaks.now section) out.old out.new result }
    ensures kept { Extends out.old.items out.new.items }
{
    if !section.is_wanted(&layout.options) {
        return Ok(());
    }
    let figures = stack_costs(alloc, section.cost(), peaks)?;
    put_section(alloc, layout, section, suppressed, &figures, out)
}

/// Appends the histogram, where it is asked for.
fn put_wanted_histogram(
    layout: &Layout<'_>,
    peaks: &Peaks,
    out: &mut Vec<u8>,
) -> Result<(), NoMemory>
    requires beside { IsBeside layout.now.tables.now peaks.now.ledger }
    ensures appended { AppendsFor (StandsFor peaks.now) (wanted_histogram layout.now)
        out.old out.new result }
    ensures kept { Extends out.old.items out.new.items }
{
    if !layout.options.histogram {
        return Ok(());
    }
    put_histogram(peaks.ledger(), layout.tables, out)
}
