//! What a program writes to. Where the bytes go is each sink's own matter.
ghost use Rattle.std.specs.Prelude.{◌≡◌, ◌<◌, ◌≤◌, ℕ, List, Option, IfOk, OnOk, OnErr, length, take};
ghost use Rattle.hp_outside.specs.Taken.{IsWrittenFrom};
ghost use Rattle.hp_outside.specs.Faults.{Faulted};

use crate::store::Failed;

/// An output, written from front to back.
///
/// A sink may tell the bytes that it took so far. Its count of faults stands in a `u64`; one that
/// has reached the end stays.
pub trait Sink {
    /// The bytes taken so far, where the sink tells them.
    ghost written: { Self → Option (List ℕ) };

    /// How many faults there were.
    ghost faults: { Self → ℕ };

    /// Takes a front of the piece and answers its length, which is above 0 where the piece is not
    /// empty. A call that fails takes nothing.
    ///
    /// `Failed` comes only where `faults` rose, and a call that takes bytes raises none; a sink that can take nothing of a piece that is
    /// not empty counts a fault and answers it.
    fn write(&mut self, piece: &[u8]) -> Result<usize, Failed>
        ensures faults { faults self.old ≤ faults self.new }
        ensures count { IfOk result (λ count. count ≤ length piece.now) }
        ensures progress { IfOk result (λ count. 0 < length piece.now → 0 < count) }
        ensures taken { IfOk result
            (IsWrittenFrom piece.now (written self.old) (written self.new)) }
        ensures kept { OnErr result (written self.new ≡ written self.old) }
        ensures sound { OnOk result (faults self.new ≡ faults self.old) }
        ensures failed { OnErr result (Faulted (faults self.old) (faults self.new)) };

    /// Passes on what the sink holds back, if it holds anything back. It takes no bytes.
    ///
    /// `Failed` comes only where `faults` rose, and another answer only where they did not.
    fn flush(&mut self) -> Result<(), Failed>
        ensures faults { faults self.old ≤ faults self.new }
        ensures kept { written self.new ≡ written self.old }
        ensures sound { OnOk result (faults self.new ≡ faults self.old) }
        ensures failed { OnErr result (Faulted (faults self.old) (faults self.new)) };
}
