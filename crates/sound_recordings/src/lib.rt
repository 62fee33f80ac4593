//! That a recording, its interpretation and its summary say one thing.
//!
//! The law `recorded_summaries` (`IsToldAgain`): without symbols, `interpret` takes the bytes of a recorded trace, of which
//! no line has a fault; and the summary of the recording (`rec_summary`) tells the figures that `interpret` with any
//! symbols and then `summary` tell of these bytes: how many events and calls there are, the bytes that were allocated,
//! what is live at the end, in bytes and in blocks, and the greatest total. The calls, the bytes and what is live are the same
//! at the stacks that any test of instruction pointers counts, and `summary` reads the interpreted trace without a fault
//! (`TellAgain`). It holds for each job that lines without a fault can say, and each order (`CanBeRecorded`)
//! under its scripts. The summary may stand behind the trace.
//!
//! Its proof goes over the actions of the order. What the lines say is a list beside their text (`Said`), each of which
//! can be read (`Readable`, `Played`). The address of each live block is a pointer that stands for a raw block of its size,
//! whose node has its stack (`Blocks`, `Names`), so that each line of an event brings an event of the interpreted trace with
//! the size that the scripts tell (`Figures`, `StackFigures`); what stands in an order under scripts allocates no live block
//! and frees no other (`Turns`).
#![tactic(auto)]

ghost use Rattle.std.specs.Prelude.{ℕ, List};
ghost use Rattle.record_scripts.specs.Job.{Job};
ghost use Rattle.sound_recordings.specs.ToldAgain.{AreToldAgain, CanBeRecorded};

use hp_num::hexadecimal_texts;
use interpret::interpreted_traces;

/// Read again, the trace of a recording has the figures that its summary tells, whether the summary stands behind it or
/// not. It does nothing: a caller whose contract speaks of a recording calls it for its clauses.
pub fn recorded_summaries()
    ensures { (job : Job) (order : List ℕ) → CanBeRecorded job order → AreToldAgain job order }
{
    hexadecimal_texts();
    interpreted_traces();
}
