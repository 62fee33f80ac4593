//! The profile of a trace: its points, their frames, and when it peaked and ended.
ghost use Rattle.std.specs.Prelude.{◌*◌, ◌≡◌, ◌+◌, ◌-◌, ◌^◌, ◌<◌, ◌≤◌, [], All, Ok, IfOk, OnOk, length, string_bytes};
ghost use Rattle.dhat_json.specs.DhatValue.{dhat_text};
ghost use Rattle.dhat_json.specs.Document.{document_of};
ghost use Rattle.dhat_json.specs.IsSound.{HasTexts};
ghost use Rattle.dhat_json.specs.PointWriter.{WritesPoint};
ghost use Rattle.dhat_trace.specs.Backtraces.{TellFrames};
ghost use Rattle.dhat_trace.specs.DhatOf.{IsTraceText, heap_profile, profile_by};
ghost use Rattle.dhat_trace.specs.Points.{IsTextWith, ReadsBackWith, WritesStacks, point_with};
ghost use Rattle.dhat_trace.specs.ProfileTexts.{command_text};

use crate::backtraces::backtraces;
use crate::frame_table::FrameTable;
use crate::place_lists::PlaceLists;
use crate::points::{CalledStack, PointFigures, called_stacks};
use crate::texts::command_text;
use dhat_json::{Dhat, FrameList, Point, PointWriter, Points, Texts};
use dhat_metrics::Lifetimes;
use hp_num::{NoMemory, Text};
use ht_trace::Tables;
use peak_costs::Peaks;
use std::alloc::Global;

/// How many events a block must live so that its life is worth a remark.
const SHORT_LIFE: u64 = 500;

/// The text of the DHAT profile of a trace: its command, how many allocations and frees it has (`te`), after how many of them
/// the most bytes were live (`tg`), a point for each stack that allocated, by ascending stack, and the table of their frames,
/// which begins with `[root]` and has each text where it first comes. Times are numbers of events. A text of the trace that
/// isn't UTF-8 has `?` for each byte that isn't ASCII. `NoMemory` where memory is wanting. What the trace was read into is let
/// go as soon as it isn't needed.
///
/// Peaks and lifetimes must have as many stacks as the tables. Allocations and frees on the one hand and stacks on the other
/// must not both be 2^32 - 1 or more, so that the points can be numbered; of a file within the limits they aren't.
pub fn trace_profile_text(
    alloc: Global,
    tables: Tables,
    peaks: Peaks,
    lifetimes: Lifetimes,
) -> Result<String, NoMemory>
    requires peaks { peaks.ledger.stacks ≡ length tables.nodes + 1 }
    requires lifetimes { length lifetimes.figures ≡ length tables.nodes + 1 }
    requires few { 4 * peaks.ledger.totals.events + peaks.ledger.stacks < 5 * (2 ^ 32 - 1) }
    ensures profile { IfOk result
        (λ text. string_bytes text ≡ dhat_text (profile_by tables peaks lifetimes)) }
    ensures trace { IfOk result (λ text. IsTraceText tables peaks lifetimes (string_bytes text)) }
    ensures reads_back { IfOk result
        (λ text. document_of (string_bytes text) ≡ Ok (profile_by tables peaks lifetimes)) }
{
    let stacks = called_stacks(alloc, &peaks, &lifetimes);
    let te = peaks.ledger().totals().events;
    let tg = peaks.peak_moment();
    drop(peaks);
    drop(lifetimes);
    let Ok(stacks) = stacks else {
        drop(tables);
        return Err(NoMemory);
    };
    let told = told_stacks(alloc, tables, &stacks)?;
    let head = heap_profile(alloc, told.cmd, te, tg, told.ftbl)?;
    written(alloc, head, &stacks, &told.backtraces)
}

/// What the tables tell of stacks: their frames, the texts of these, and the command.
#[derive(Drop)]
struct Told {
    backtraces: PlaceLists,
    ftbl: Texts,
    cmd: Text,
}

/// What the tables, which are let go, tell of these stacks.
fn told_stacks(alloc: Global, tables: Tables, stacks: &[CalledStack]) -> Result<Told, NoMemory>
    requires held { All (λ called. called.stack ≤ length tables.nodes) stacks.now }
    ensures backtraces { IfOk result
        (λ told. TellFrames tables stacks.now told.ftbl told.backtraces) }
    ensures cmd { IfOk result (λ told. told.cmd ≡ command_text tables.command) }
{
    let gathered = told_by_tables(alloc, &tables, stacks);
    drop(tables);
    let Gathered {
        backtraces,
        table,
        cmd,
    } = gathered?;
    let ftbl = table.into_texts()?;
    Ok(Told {
        backtraces,
        ftbl,
        cmd,
    })
}

/// What is told of stacks while the tables are at hand. The texts of their frames stand in the table of frames still.
#[derive(Drop)]
struct Gathered {
    backtraces: PlaceLists,
    table: FrameTable,
    cmd: Text,
}

/// What the tables tell of these stacks.
fn told_by_tables(
    alloc: Global,
    tables: &Tables,
    stacks: &[CalledStack],
) -> Result<Gathered, NoMemory>
    requires held { All (λ called. called.stack ≤ length tables.now.nodes) stacks.now }
    ensures backtraces { IfOk result
        (λ all. TellFrames tables.now stacks.now all.table.texts all.backtraces) }
    ensures cmd { IfOk result (λ gathered. gathered.cmd ≡ command_text tables.now.command) }
{
    let cmd = command_text(alloc, tables)?;
    let mut table = FrameTable::new(alloc, tables)?;
    let backtraces = backtraces(alloc, tables, stacks, &mut table)?;
    Ok(Gathered {
        backtraces,
        table,
        cmd,
    })
}

/// The text of the profile with the points of these stacks.
fn written(
    alloc: Global,
    head: Dhat,
    stacks: &[CalledStack],
    backtraces: &PlaceLists,
) -> Result<String, NoMemory>
    requires texts { HasTexts head }
    requires held { All (λ called. called.stack < length backtraces.now) stacks.now }
    ensures text { IfOk result
        (λ text. IsTextWith head stacks.now backtraces.now (string_bytes text)) }
    ensures reads_back { IfOk result
        (λ text. ReadsBackWith head stacks.now backtraces.now (string_bytes text)) }
{
    let mut writer = PointWriter::new(alloc, head)?;
    match put_points(alloc, stacks, backtraces, &mut writer) {
        Ok(()) => writer.finish(),
        Err(fault) => {
            drop(writer);
            Err(fault)
        }
    }
}

/// Puts the points of these stacks behind none.
fn put_points(
    alloc: Global,
    stacks: &[CalledStack],
    backtraces: &PlaceLists,
    writer: &mut PointWriter,
) -> Result<(), NoMemory>
    requires held { All (λ called. called.stack < length backtraces.now) stacks.now }
    ensures { OnOk result (WritesStacks writer.old writer.new stacks.now backtraces.now) }
{
    let mut places = Vec::new(alloc);
    'each_stack: for called in stacks {
        backtraces.places_into(called.stack as usize, &mut places)?;
        put_point(alloc, called.figures, &places, writer)?;
    }
    Ok(())
}

/// Puts the point with these figures and the frames at these places.
fn put_point(
    alloc: Global,
    figures: PointFigures,
    places: &[usize],
    writer: &mut PointWriter,
) -> Result<(), NoMemory>
    ensures { OnOk result (WritesPoint writer.old writer.new (point_with figures places.now)) }
{
    let fs = frame_list(alloc, places)?;
    writer.put(&Point {
        tb: figures.tb,
        tbk: figures.tbk,
        life: Some(figures.life),
        access: None,
        fs,
    })
}

/// The list of these places.
fn frame_list(alloc: Global, places: &[usize]) -> Result<FrameList, NoMemory>
    ensures { IfOk result (λ list. list ≡ places.now) }
{
    let mut list = FrameList::new(alloc);
    'each_place: for place in places {
        list.push(*place as u64)?;
    }
    Ok(list)
}

/// The profile of a heap with this command, this last time and this time of the peak, this table, and no points.
fn heap_profile(alloc: Global, cmd: Text, te: u64, tg: u64, ftbl: Texts) -> Result<Dhat, NoMemory>
    ensures { IfOk result (λ dhat. dhat ≡ heap_profile cmd te tg [] ftbl) }
{
    let mode = Text::new(alloc, b"heap")?;
    let verb = Text::new(alloc, b"Allocated")?;
    let tu = Text::new(alloc, b"events")?;
    let mtu = Text::new(alloc, b"Mevents")?;
    Ok(Dhat {
        mode,
        verb,
        bklt: true,
        bkacc: false,
        bu: None,
        bsu: None,
        bksu: None,
        tu,
        mtu,
        tuth: Some(SHORT_LIFE),
        cmd,
        pid: 0,
        te,
        tg: Some(tg),
        pps: Points::new(alloc),
        ftbl,
    })
}
