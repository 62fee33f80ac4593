//! The text of a recording by threads. From which files the scripts come is no part of it.
ghost use Rattle.std.specs.Prelude.{IfOk};
ghost use Rattle.record_scripts.specs.ModuleLines.{AreModuleLines};
ghost use Rattle.record_book.specs.Orders.{IsInterleaving};
ghost use Rattle.record_book.specs.ScriptFigures.{HasScriptFigures};
ghost use Rattle.heaprec_commands.specs.Recorded.{IsRecorded};

use hp_num::{NoMemory, put_bytes};
use record_book::{Book, quiet_modules, spelled_orders};
use record_scripts::Scripts;
use recorder::{Gate, record_job};
use sound_recordings::recorded_summaries;
use std::alloc::Global;
use std::sync::Wait;
use std::thread::Threads;

/// Records these scripts by a worker for each of them, which passes the gate before each hold of the lock, and answers the
/// trace, and behind it the summary where that is asked for.
pub fn record_text<R: Threads + Wait + Sync, G: Gate + Sync>(
    rt: &R,
    alloc: Global,
    scripts: Scripts,
    summary: bool,
    gate: &G,
) -> Result<Vec<u8>, NoMemory>
    ensures { IfOk result (λ text. IsRecorded summary scripts text.items) }
{
    let _modules = scripts.modules();
    let book = record_job(rt, alloc, scripts.share()?, gate)?;
    book_text(alloc, book, summary)
}

/// The trace of a book with all turns taken, and behind it the summary where that is asked for.
fn book_text(alloc: Global, book: Book, summary: bool) -> Result<Vec<u8>, NoMemory>
    requires all { IsInterleaving book.job.scripts book.order }
    requires figures { HasScriptFigures book.job.scripts book.order }
    requires modules { AreModuleLines book.job.modules }
    ensures { IfOk result (λ text. IsRecorded summary book.job text.items) }
{
    spelled_orders();
    quiet_modules();
    recorded_summaries();
    let _threads = book.threads();
    if summary {
        let mut lines = Vec::new(alloc);
        book.put_summary(&mut lines)?;
        let mut text = book.into_bytes();
        put_bytes(&mut text, &lines)?;
        return Ok(text);
    }
    Ok(book.into_bytes())
}
