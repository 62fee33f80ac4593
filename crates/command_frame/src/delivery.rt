//! Writing what is left of a run to the two outputs. What is written is decided by the commands; here are its order and the
//! status of a write that fails.
ghost use Rattle.command_frame.specs.Delivers.{DeliversParts, DeliversRun, WritesBoth};

use crate::halt::Halt;
use crate::ready_text::{NoText, ReadyText};
use crate::texts::ProgramTexts;
use hp_outside::{Failed, Sink, write_whole};

/// The status where all was done.
const DONE: u8 = 0;

/// The status where a write or a flush failed.
const WRITE_STATUS: u8 = 4;

/// Writes what a run gave, each of both outputs whole, and flushes both: the rest of the output, or the message of a halt. The
/// answer is 0 or the status of the halt, or 4 where a write or a flush failed; where a write to standard output failed,
/// `write failed` is the one message. It takes no memory.
pub fn deliver<R: ReadyText + Drop, O: Sink, E: Sink>(
    ran: Result<R, Halt>,
    texts: &ProgramTexts,
    out: &mut O,
    err: &mut E,
) -> u8
    ensures { DeliversRun O.Sink E.Sink R.bytes texts.now ran
        result out.old out.new err.old err.new }
{
    match ran {
        Ok(rest) => {
            let mut rest = rest;
            deliver_parts(&mut rest, &[], DONE, texts.write_failed, out, err)
        }
        Err(halt) => {
            let message = halt.message.bytes(texts);
            let status = halt.status.code();
            let mut none = NoText;
            deliver_parts(&mut none, message, status, texts.write_failed, out, err)
        }
    }
}

/// Writes the rest of an output and a message, each whole, and flushes both outputs. The answer is the status, or 4.
fn deliver_parts<R: ReadyText, O: Sink, E: Sink>(
    rest: &mut R,
    message: &[u8],
    status: u8,
    write_failed: &[u8],
    out: &mut O,
    err: &mut E,
) -> u8
    ensures { DeliversParts O.Sink E.Sink write_failed.now (R.bytes rest.old) message.now status
        result out.old out.new err.old err.new }
{
    let wrote = write_both(rest, message, write_failed, out, err);
    let flushed_out = out.flush();
    let flushed_err = err.flush();
    if wrote.is_ok() && flushed_out.is_ok() && flushed_err.is_ok() {
        status
    } else {
        WRITE_STATUS
    }
}

/// Writes the rest of the output, and then the message or, where the output wasn't taken whole, `write_failed`.
fn write_both<R: ReadyText, O: Sink, E: Sink>(
    rest: &mut R,
    message: &[u8],
    write_failed: &[u8],
    out: &mut O,
    err: &mut E,
) -> Result<(), Failed>
    ensures { WritesBoth O.Sink E.Sink write_failed.now (R.bytes rest.old) message.now
        out.old out.new err.old err.new result }
{
    match rest.write(out) {
        Ok(()) => write_whole(err, message),
        Err(Failed) => {
            let _ = write_whole(err, write_failed);
            Err(Failed)
        }
    }
}
