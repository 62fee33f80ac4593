//! A section of a report: the stacks by one figure, in groups or by themselves. Which sections there are is in `sections`.
#![tactic(auto, using(hp_num::proofs::Laws::extends_same, hp_num::proofs::Laws::extends_more, hp_num::proofs::Laws::extends_trans))]

ghost use Rattle.std.specs.Prelude.{◌≡◌, ◌^◌, ◌<◌, ◌≤◌, if◌then◌else◌, IfOk, length, sum};
ghost use Rattle.hp_num.specs.Extends.{Extends};
ghost use Rattle.ht_print.specs.Appends.{Appends};
ghost use Rattle.ht_print.specs.Layouts.{AreEntries, AreFigures, AreStacks, HasSectionPlaces, HasSuppressed, TellsPlaces, groups_lines, merged_lines, section_body, section_lines, section_text, stacks_text};
ghost use Rattle.ht_print.specs.PlacedStacks.{ArePlaced};
ghost use Rattle.ht_print.specs.ReportText.{suppressed_line, unsuppressed};

use crate::entry::{Entry, ordered_stacks};
use crate::groups::ordered_groups;
use crate::layout::Layout;
use crate::placed_stacks::PlacedStacks;
use crate::report_lines::{put_group, put_left, put_stacks, split_shown};
use crate::scale::{Scale, Unit};
use crate::sections::Section;
use crate::suppressed::Suppressed;
use hp_num::{NoMemory, put_bytes, put_dec};
use std::alloc::Global;

/// Appends a section with the figures of all stacks: its heading, its stacks, and an empty line.
#[tactic(auto, unfolding(crate::specs::ReportText::section_text))]
pub(crate) fn put_section(
    alloc: Global,
    layout: &Layout<'_>,
    section: Section,
    suppressed: &Suppressed,
    figures: &[u64],
    out: &mut Vec<u8>,
) -> Result<(), NoMemory>
    requires places { HasSectionPlaces layout.now }
    requires suppressed { HasSuppressed layout.now suppressed.now }
    requires figures { AreFigures layout.now figures.now }
    ensures appended { Appends (section_text layout.now section figures.now) out.old out.new result }
    ensures kept { Extends out.old.items out.new.items }
{
    put_bytes(out, section.heading())?;
    put_body(alloc, layout, section, suppressed, figures, out)?;
    put_bytes(out, b"\n")
}

/// Appends what stands below the heading of a section. Where suppressed stacks are left out, they are told in one line.
fn put_body(
    alloc: Global,
    layout: &Layout<'_>,
    section: Section,
    suppressed: &Suppressed,
    figures: &[u64],
    out: &mut Vec<u8>,
) -> Result<(), NoMemory>
    requires places { HasSectionPlaces layout.now }
    requires suppressed { HasSuppressed layout.now suppressed.now }
    requires figures { AreFigures layout.now figures.now }
    ensures appended { Appends (section_body layout.now section figures.now) out.old out.new result }
    ensures kept { Extends out.old.items out.new.items }
{
    if !section.leaves_out() {
        return put_figures(alloc, layout, section.unit(), figures, out);
    }
    let kept = unsuppressed(alloc, suppressed, figures)?;
    put_figures(alloc, layout, section.unit(), &kept, out)?;
    put_suppressed(sum_of(figures) - sum_of(&kept), out)
}

/// The figures with a 0 for each stack that is suppressed, or `NoMemory`.
fn unsuppressed(
    alloc: Global,
    suppressed: &Suppressed,
    figures: &[u64],
) -> Result<Vec<u64>, NoMemory>
    requires as_many { length figures.now ≡ length suppressed.now }
    requires few { length figures.now < 2 ^ 32 }
    ensures figures { IfOk result (λ kept. kept.items ≡ unsuppressed suppressed.now figures.now) }
{
    let mut kept = Vec::with_capacity(alloc, figures.len())?;
    'each_stack: for stack in 0..figures.len() {
        kept.push(unsuppressed_figure(suppressed.has(stack as u32), figures[stack]))?;
    }
    Ok(kept)
}

/// The figure of a stack, where it isn't suppressed, else 0.
fn unsuppressed_figure(is_suppressed: bool, figure: u64) -> u64
    ensures { result ≡ (if is_suppressed then 0 else figure) }
{
    if is_suppressed { 0 } else { figure }
}

/// Appends how many bytes suppressed stacks have, where they have some.
#[tactic(auto, unfolding(crate::specs::ReportText::suppressed_line))]
fn put_suppressed(bytes: u64, out: &mut Vec<u8>) -> Result<(), NoMemory>
    ensures appended { Appends (suppressed_line bytes) out.old out.new result }
    ensures kept { Extends out.old.items out.new.items }
{
    if bytes == 0 {
        return Ok(());
    }
    put_bytes(out, b"suppressed: ")?;
    put_dec(out, bytes)?;
    put_bytes(out, b" bytes\n")
}

/// Appends the stacks that have a figure, or that none has.
fn put_figures(
    alloc: Global,
    layout: &Layout<'_>,
    unit: Unit,
    figures: &[u64],
    out: &mut Vec<u8>,
) -> Result<(), NoMemory>
    requires places { HasSectionPlaces layout.now }
    requires figures { AreFigures layout.now figures.now }
    ensures appended { Appends (section_lines layout.now unit figures.now) out.old out.new result }
    ensures kept { Extends out.old.items out.new.items }
{
    let scale = Scale {
        unit,
        total: sum_of(figures),
    };
    let stacks = ordered_stacks(alloc, figures)?;
    put_entries(alloc, layout, scale, &stacks, out)
}

fn sum_of(figures: &[u64]) -> u64
    requires { sum figures.now ≤ 2 ^ 62 }
    ensures { result ≡ sum figures.now }
{
    figures.iter().sum()
}

/// Appends the stacks, which are in order.
#[tactic(auto, unfolding(crate::specs::ReportText::stacks_text))]
fn put_entries(
    alloc: Global,
    layout: &Layout<'_>,
    scale: Scale,
    stacks: &[Entry],
    out: &mut Vec<u8>,
) -> Result<(), NoMemory>
    requires places { HasSectionPlaces layout.now }
    requires stacks { AreStacks layout.now scale stacks.now }
    ensures appended { Appends (stacks_text layout.now scale stacks.now) out.old out.new result }
    ensures kept { Extends out.old.items out.new.items }
{
    if stacks.is_empty() {
        return put_bytes(out, b"(none)\n");
    }
    if layout.options.merge {
        return put_merged(alloc, layout, scale, stacks, out);
    }
    let mut frames = Vec::new(alloc);
    put_stacks(layout, scale, stacks, &mut frames, out)
}

/// Appends the groups of the stacks.
fn put_merged(
    alloc: Global,
    layout: &Layout<'_>,
    scale: Scale,
    stacks: &[Entry],
    out: &mut Vec<u8>,
) -> Result<(), NoMemory>
    requires places { TellsPlaces layout.now }
    requires stacks { AreStacks layout.now scale stacks.now }
    ensures appended { Appends (merged_lines layout.now scale stacks.now) out.old out.new result }
    ensures kept { Extends out.old.items out.new.items }
{
    let placed = PlacedStacks::of(alloc, layout.places, stacks)?;
    let groups = ordered_groups(alloc, layout.places, &placed)?;
    put_groups(alloc, layout, scale, &placed, &groups, out)
}

/// Appends the first groups of the stacks, and how many are left.
fn put_groups(
    alloc: Global,
    layout: &Layout<'_>,
    scale: Scale,
    placed: &PlacedStacks<'_>,
    groups: &[Entry],
    out: &mut Vec<u8>,
) -> Result<(), NoMemory>
    requires places { TellsPlaces layout.now }
    requires placed { ArePlaced layout.now.places.now placed.now }
    requires entries { AreEntries layout.now scale placed.now.stacks.now }
    requires groups { AreEntries layout.now scale groups.now }
    ensures appended { Appends (groups_lines layout.now scale placed.now groups.now) out.old out.new result }
    ensures kept { Extends out.old.items out.new.items }
{
    let mut members = Vec::new(alloc);
    let mut frames = Vec::new(alloc);
    let (shown, left) = split_shown(groups, layout.options.limit);
    'each_group: for group in shown {
        let number = layout.places.numbers[group.stack as usize];
        placed.members_into(layout.places, number, &mut members)?;
        put_group(layout, scale, *group, &members, &mut frames, out)?;
    }
    put_left(b"more places: ", left, out)
}
