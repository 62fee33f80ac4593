//! Reading a named file as a whole, and making the output of it. What its bytes mean is the business of the commands.
ghost use Rattle.std.specs.Prelude.{◌≡◌, ◌-◌, ◌^◌, ◌<◌, ◌≤◌, ℕ, List, IfErr, IfOk, length};
ghost use Rattle.command_frame.specs.HaltsWith.{HaltsUnread};
ghost use Rattle.command_frame.specs.Report.{Verdict, Writes};
ghost use Rattle.command_frame.specs.RunsTo.{ReadsWhole, RunsWhole};
ghost use Rattle.command_frame.specs.Taker.{Refuses};

use crate::context::RunContext;
use crate::fault::{Fault, FaultStatus};
use crate::halt::Halt;
use crate::taker::LineRefusal;
use hp_num::{NoMemory, put_bytes};
use hp_outside::{Bytes, Store, WholeFault, read_whole};
use std::alloc::Global;

/// What makes the output of a file that is read whole.
pub trait DocumentReport {
    type Fault: Fault;

    /// What it makes of the bytes of a file.
    ghost verdict: { Self → List ℕ → Verdict };

    /// The whole output, or the first fault of the bytes, which may be let go before the output is made. `NoMemory` where memory is
    /// wanting.
    fn report(&self, alloc: Global, bytes: Bytes) -> Result<Vec<u8>, LineRefusal<Self::Fault>>
        requires { length bytes ≤ 2 ^ 34 }
        ensures output { IfOk result (λ output. verdict self.now bytes ≡ Writes output.items) }
        ensures fault { IfErr result
            (λ refusal. Refuses Self.Fault.told refusal (verdict self.now bytes)) };
}

/// The file has more bytes than the limit.
#[derive(Clone, Copy)]
struct TooLong;

impl Fault for TooLong {
    ghost use Rattle.command_frame.specs.FirstFault.{input_too_long};

    ghost told = { λ _. input_too_long };

    fn put_text(&self, out: &mut Vec<u8>) -> Result<(), NoMemory> {
        put_bytes(out, WholeFault::InputTooLong.text().as_bytes())
    }

    fn status(&self) -> FaultStatus {
        FaultStatus::PastLimit
    }
}

/// The halt where the bytes of an open file weren't given.
fn unread(context: &RunContext, name: &str, fault: WholeFault) -> Halt
    ensures { HaltsUnread context.now.texts name.now fault result }
{
    match fault {
        WholeFault::ReadFailed => Halt::unreadable(
            context.alloc,
            &context.texts,
            name,
            fault.text(),
        ),
        WholeFault::InputTooLong => Halt::at_file(context.alloc, &context.texts, name, &TooLong),
        WholeFault::NoMemory => Halt::no_memory(),
    }
}

/// Opens the named file and reads all its bytes, which are within the limit.
pub fn read_document<S: Store>(
    context: &RunContext,
    name: &str,
    store: &mut S,
) -> Result<Bytes, Halt>
    requires opens { S.opens store.old < 2 ^ 64 - 1 }
    ensures read { ReadsWhole S.Store context.now name.now store.old store.new result }
    ensures within { IfOk result (λ bytes. length bytes ≤ 2 ^ 34) }
{
    match store.open(name) {
        Ok(()) => {}
        Err(fault) => return Err(context.unopened(name, fault)),
    }
    match read_whole(context.alloc, &context.limits, store) {
        Ok(bytes) => Ok(bytes),
        Err(fault) => Err(unread(context, name, fault)),
    }
}

/// Reads the named file whole, and makes the output of its bytes. It writes nothing.
pub fn run_document<D: DocumentReport, S: Store>(
    context: &RunContext,
    name: &str,
    document: &D,
    store: &mut S,
) -> Result<Vec<u8>, Halt>
    requires opens { S.opens store.old < 2 ^ 64 - 1 }
    ensures { RunsWhole S.Store context.now name.now (D.verdict document.now)
        store.old store.new result }
{
    let bytes = match read_document(context, name, store) {
        Ok(bytes) => bytes,
        Err(halt) => return Err(halt),
    };
    match document.report(context.alloc, bytes) {
        Ok(output) => Ok(output),
        Err(refusal) => Err(context.refused(name, refusal)),
    }
}
