//! The check of the current file of a store. What its lines are compared with is no part of it.
ghost use Rattle.std.specs.Prelude.{◌≡◌, ◌^◌, ◌≤◌, IsTrue};
ghost use Rattle.std.specs.Arc.{arc_value};
ghost use Rattle.order_check.specs.CheckedFile.{AnswersReader, AnswersWithin, OnlyReads};
ghost use Rattle.hp_outside.specs.NewReader.{IsNewReader};
ghost use Rattle.order_check.specs.CheckedLines.{end_verdict};
ghost use Rattle.order_check.specs.NewCheck.{IsNewCheck};

use crate::order_check::OrderCheck;
use crate::verdict::{CheckFault, CheckRefusal, Verdict};
use hp_num::decimal_texts;
use hp_outside::{Limits, LineFault, LineReader, Store};
use record_book::quiet_modules;
use record_scripts::Scripts;
use std::alloc::Global;
use std::sync::Arc;

/// Says whether the current file is a recording of these scripts. Nothing of the file may be read before.
///
/// - `Yes` exactly where no line is past a limit, and the bytes are the recording of the order that they spell, in which
///   all turns of the scripts are taken;
/// - else `No`, where no line up to there is past a limit, with the first line up to which the file begins as no recording
///   of these scripts does, in whatever order; where there is none, with the line behind the last;
/// - else `LineTooLong` and `InputTooLong`, as a reader of lines tells them;
/// - `ReadFailed` only where a call on the store failed before the lines told of another answer;
/// - `NoMemory` only where memory is wanting.
pub fn check_order<S: Store>(
    alloc: Global,
    job: Arc<Scripts>,
    limits: &Limits,
    store: &mut S,
) -> Result<Verdict, CheckFault>
    requires { IsTrue (S.current store.old) }
    ensures answer { AnswersWithin S.Store limits.now (arc_value job) store.old store.new result }
    ensures store { OnlyReads S.Store store.old store.new result }
{
    quiet_modules();
    decimal_texts();
    let _threads = job.threads();
    let _modules = job.modules();
    let mut check = OrderCheck::new(alloc, job)?;
    let mut lines = LineReader::new(alloc, limits)?;
    compare_lines(&mut check, &mut lines, store)
}

/// Compares all lines of the current file.
fn compare_lines<S: Store>(
    check: &mut OrderCheck,
    lines: &mut LineReader,
    store: &mut S,
) -> Result<Verdict, CheckFault>
    requires current { IsTrue (S.current store.old) }
    requires bounds { lines.old.input ≤ 2 ^ 34 }
    requires new_lines { IsNewReader lines.old }
    requires new_check { IsNewCheck check.old }
    ensures answer { AnswersReader S.Store lines.old check.old.job store.old store.new result }
    ensures store { OnlyReads S.Store store.old store.new result }
{
    'lines: loop {
        let number = lines.number() + 1;
        match lines.next(store) {
            Ok(Some(span)) => match check.line(lines.line(&span)) {
                Ok(()) => {}
                Err(CheckRefusal::NotRecorded) => return Ok(Verdict::No { line: number }),
                Err(CheckRefusal::NoMemory) => return Err(CheckFault::NoMemory),
            },
            Ok(None) => return Ok(verdict_at_end(check.end(lines.ended()), number)),
            Err(LineFault::ReadFailed) => return Err(CheckFault::ReadFailed),
            Err(LineFault::LineTooLong) => return Err(CheckFault::LineTooLong),
            Err(LineFault::InputTooLong) => return Err(CheckFault::InputTooLong),
        }
    }
}

/// The verdict where all lines were taken, with the number of the line behind the last.
fn verdict_at_end(events: Option<u64>, number: u64) -> Verdict
    ensures { result ≡ end_verdict events number }
{
    match events {
        Some(events) => Verdict::Yes { events },
        None => Verdict::No { line: number },
    }
}
