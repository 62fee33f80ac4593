//! What takes the lines of a file, one after another. What the lines mean is the business of the commands.
ghost use Rattle.std.specs.Prelude.{◌≡◌, ℕ, ◌+◌, ◌^◌, ◌<◌, ◌≤◌, List, length, unwrap_or, OnOk, OnErr};
ghost use Rattle.hp_outside.specs.WholeLines.{IsLineText};
ghost use Rattle.command_frame.specs.Batch.{TakesFirst};
ghost use Rattle.command_frame.specs.Report.{Report};
ghost use Rattle.command_frame.specs.Taker.{GainsLine, IsGood, MayEnd, TakesMore, TellsEnd, TellsLine};

use crate::fault::Fault;
use hp_num::NoMemory;

/// Why a line isn't taken.
#[derive(Drop)]
pub enum LineRefusal<F> {
    /// The line has a fault.
    Fault(F),
    /// Memory was wanting.
    NoMemory,
}

impl<F> From<NoMemory> for LineRefusal<F> {
    ghost use Rattle.command_frame.specs.declared.taker.LineRefusal.TheVariants.{NoMemory as OutOfMemory};

    ghost from_gives = { λ _ refusal. refusal ≡ OutOfMemory };

    fn from(_: NoMemory) -> LineRefusal<F> {
        LineRefusal::NoMemory
    }
}

/// What takes the lines of a file.
pub trait LineTaker {
    type Fault: Fault;

    /// What it makes of lines: their faults, and what they give to standard output.
    ghost report: { Self → Report };

    /// It has taken these lines.
    ghost has_taken: { Self → List (List ℕ) → Type 0 };

    /// It may take a line.
    ghost is_sound: { Self → Type 0 };

    /// A number that grows by no more than a line's bytes and 1 with each line.
    ghost measure: { Self → ℕ };

    /// Takes the next line, in which no line feed stands, and appends what the line gives to standard output. `Fault` comes
    /// exactly where the line has one after the lines before it, and `NoMemory` where memory is wanting; `output` then is as
    /// it was, and the taker of no use.
    fn line(&mut self, line: &[u8], output: &mut Vec<u8>) -> Result<(), LineRefusal<Self::Fault>>
        requires sound { is_sound self.old }
        requires one_line { IsLineText line.now }
        requires short { length line.now < 2 ^ 32 }
        requires room { measure self.old + length line.now ≤ 2 ^ 34 }
        ensures sound { OnOk result (is_sound self.new) }
        ensures taken { OnOk result (TakesMore (has_taken self.old) (has_taken self.new) line.now) }
        ensures no_fault { OnOk result (IsGood (report self.old) (has_taken self.old) line.now) }
        ensures fault { TellsLine Self.Fault.told (report self.old) (has_taken self.old)
            line.now result }
        ensures output { GainsLine (report self.old) (has_taken self.old) line.now
            output.old output.new result }
        ensures no_output { OnErr result (output.new.items ≡ output.old.items) }
        ensures measure { OnOk result (measure self.new ≤ measure self.old + length line.now + 1) }
        ensures report { report self.new ≡ report self.old };

    /// Whether the file may end here: the fault of its end, if it has one. `ended` says whether the last line ended with
    /// its line feed; it is true where there is no line.
    fn end(&self, ended: bool) -> Result<(), Self::Fault>
        ensures no_fault { OnOk result (MayEnd (report self.now) (has_taken self.now) ended) }
        ensures fault { TellsEnd Self.Fault.told (report self.now) (has_taken self.now)
            ended result };

    /// Takes the line at the front of the bytes, as `line` would, and answers how many bytes it has with its line feed: a
    /// whole line of fewer than 64 bytes that has no fault. `None` where it takes none, as it may of any line; then it
    /// stands for the same lines. Where memory is wanting, a later call tells it.
    fn front(&mut self, ready: &[u8], output: &mut Vec<u8>) -> Option<usize>
        requires sound { is_sound self.old }
        requires room { measure self.old + length ready.now ≤ 2 ^ 34 }
        ensures sound { is_sound self.new }
        ensures taken { TakesFirst (report self.old) (has_taken self.old) (has_taken self.new)
            ready.now output.old.items output.new.items result }
        ensures measure { measure self.new ≤ measure self.old + unwrap_or result 0 }
        ensures report { report self.new ≡ report self.old }
    {
        None
    }
}
