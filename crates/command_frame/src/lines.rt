//! Taking the lines of the current file, one after another, and passing on what they give to standard output. Which file it
//! is, and what a stop is called, is no part of it.
ghost use Rattle.std.specs.Prelude.{◌≡◌, ◌+◌, ◌^◌, ◌≤◌, [], OnOk, OnErr};
ghost use Rattle.hp_outside.specs.Taken.{GainsFront};
ghost use Rattle.command_frame.specs.NewTaker.{IsNewTaker, SameTaker};
ghost use Rattle.command_frame.specs.TakenReady.{HasTakenReady};
ghost use Rattle.command_frame.specs.TakesFile.{MayReadLines, RanToBuffer, TakesFile};
ghost use Rattle.command_frame.specs.SinkCalls.{HasFailed, PassesOn, SameFaults, Writes};

use crate::fault::{Fault, FaultStatus};
use crate::front::take_batch;
use crate::taker::{LineRefusal, LineTaker};
use hp_num::{NoMemory, put_bytes};
use hp_outside::{Failed, LineFault, LineReader, Sink, Store, write_whole};

/// A fault of a file that is read by lines.
#[derive(Drop)]
pub enum FileFault<F> {
    /// The line has more bytes than the limit, within the bytes that a file may have.
    LineTooLong,
    /// The file has more bytes than the limit, and the line doesn't end within those.
    InputTooLong,
    /// A fault of what the line says.
    Taker(F),
}

impl<F: Fault> Fault for FileFault<F> {
    ghost use Rattle.command_frame.specs.LinesRun.{told_of};

    ghost told = { told_of F.told };

    fn put_text(&self, out: &mut Vec<u8>) -> Result<(), NoMemory> {
        match self {
            FileFault::LineTooLong => put_bytes(out, LineFault::LineTooLong.text().as_bytes()),
            FileFault::InputTooLong => put_bytes(out, LineFault::InputTooLong.text().as_bytes()),
            FileFault::Taker(fault) => fault.put_text(out),
        }
    }

    fn status(&self) -> FaultStatus {
        match self {
            FileFault::LineTooLong | FileFault::InputTooLong => FaultStatus::PastLimit,
            FileFault::Taker(fault) => fault.status(),
        }
    }
}

/// Why not all lines of a file were taken.
#[derive(Drop)]
pub enum LinesStop<F> {
    /// The line of this number, from 1, or the end behind the last line, is the first with a fault.
    AtLine { number: u64, fault: FileFault<F> },
    /// A read failed.
    ReadFailed,
    /// A write failed.
    WriteFailed,
    /// Memory was wanting.
    NoMemory,
}

/// Bytes of output that are kept back at most before they are written, but for what lines that are taken at once give.
pub const PIECE: usize = 65_536;

/// A line must be allowed so many bytes where lines are taken at once, since their lengths aren't judged.
const LONGEST_AT_ONCE: u32 = 64;

/// Takes all lines of the current file. What they give to standard output is written but for what `buffer` then holds.
pub fn read_through_buffer<T: LineTaker, S: Store, O: Sink>(
    lines: &mut LineReader,
    taker: &mut T,
    store: &mut S,
    out: &mut O,
    buffer: &mut Vec<u8>,
) -> Result<(), LinesStop<T::Fault>>
    requires file { MayReadLines S.Store lines.old store.old }
    requires taker { IsNewTaker T.LineTaker taker.old }
    requires no_output { buffer.old.items ≡ [] }
    ensures run { RanToBuffer S.Store O.Sink T.Fault.told T.LineTaker taker.old taker.new lines.old
        store.old store.new out.old out.new buffer.new result }
    ensures file { TakesFile S.Store O.Sink lines.old lines.new store.old store.new out.old out.new
        result }
    ensures taker { SameTaker T.LineTaker taker.old taker.new result }
{
    'lines: loop {
        let number = lines.number() + 1;
        match lines.next(store) {
            Ok(Some(span)) => match taker.line(lines.line(&span), buffer) {
                Ok(()) => match pass_on_piece(buffer, out) {
                    Ok(()) => take_ready(lines, taker, buffer),
                    Err(Failed) => return Err(LinesStop::WriteFailed),
                },
                Err(LineRefusal::Fault(fault)) => {
                    let fault = FileFault::Taker(fault);
                    return Err(LinesStop::AtLine { number, fault });
                }
                Err(LineRefusal::NoMemory) => return Err(LinesStop::NoMemory),
            },
            Ok(None) => {
                return match taker.end(lines.ended()) {
                    Ok(()) => Ok(()),
                    Err(fault) => {
                        let fault = FileFault::Taker(fault);
                        Err(LinesStop::AtLine { number, fault })
                    }
                };
            }
            Err(LineFault::ReadFailed) => return Err(LinesStop::ReadFailed),
            Err(LineFault::LineTooLong) => {
                let fault = FileFault::LineTooLong;
                return Err(LinesStop::AtLine { number, fault });
            }
            Err(LineFault::InputTooLong) => {
                let fault = FileFault::InputTooLong;
                return Err(LinesStop::AtLine { number, fault });
            }
        }
    }
}

/// Takes the lines that the reader of lines holds already, as many as the taker takes at once. What they give to standard
/// output stands at the end of the buffer.
#[inline(always)]
fn take_ready<T: LineTaker>(lines: &mut LineReader, taker: &mut T, buffer: &mut Vec<u8>)
    requires bounds { lines.old.input ≤ 2 ^ 34 }
    requires given { lines.old.given ≤ lines.old.input + 1 }
    requires sound { T.is_sound taker.old }
    requires measure { T.measure taker.old ≤ lines.old.given }
    ensures { HasTakenReady T.LineTaker lines.old lines.new taker.old taker.new buffer.old
        buffer.new }
{
    let ready = lines.ready_lines();
    if ready.is_empty() {
        return;
    }
    if lines.line_limit() < LONGEST_AT_ONCE {
        return;
    }
    let batch = take_batch(taker, ready, buffer);
    lines.pass(batch.bytes, batch.lines);
}

/// Writes what is kept back, where it is a piece or more.
pub fn pass_on_piece<O: Sink>(buffer: &mut Vec<u8>, out: &mut O) -> Result<(), Failed>
    ensures passed { OnOk result (PassesOn O.Sink out.old out.new buffer.old buffer.new) }
    ensures front { OnErr result
        (GainsFront (O.written out.old) (O.written out.new) buffer.old.items) }
    ensures emptied { OnErr result (buffer.new.items ≡ []) }
    ensures sound { OnOk result (SameFaults O.Sink out.old out.new) }
    ensures failed { OnErr result (HasFailed O.Sink out.old out.new) }
{
    if buffer.len() < PIECE {
        return Ok(());
    }
    pass_on(buffer, out)
}

/// Writes all that is kept back.
pub fn pass_on<O: Sink>(buffer: &mut Vec<u8>, out: &mut O) -> Result<(), Failed>
    ensures passed { OnOk result
        (Writes O.Sink out.old out.new buffer.old.items) }
    ensures front { GainsFront (O.written out.old) (O.written out.new) buffer.old.items }
    ensures emptied { buffer.new.items ≡ [] }
    ensures sound { OnOk result (SameFaults O.Sink out.old out.new) }
    ensures failed { OnErr result (HasFailed O.Sink out.old out.new) }
{
    let wrote = write_whole(out, buffer);
    buffer.clear();
    wrote
}
