//! What a program reads from: named files, one of which is current at a time.
//! Which files there are, and where they lie, is each store's own matter.
ghost use Rattle.std.specs.Prelude.{◌≡◌, ◌+◌, ◌-◌, ◌^◌, ◌<◌, ◌≤◌, ◌↔◌, ℕ, Bool, List, [], None, Option, IsTrue, IsSome, IfOk, OnOk, OnErr, is_ok, length, take};
ghost use Rattle.hp_outside.specs.Folder.{Folder, file_of};
ghost use Rattle.hp_outside.specs.Faults.{Faulted};
ghost use Rattle.hp_outside.specs.FaultTexts.{open_text};
ghost use Rattle.hp_outside.specs.OpenAnswer.{IsLeftOf, TellsAbsent};
ghost use Rattle.hp_outside.specs.Taken.{IsEndAt, IsReadInto, WhereTold};

use thiserror::Error;

/// A call on a store or a sink that failed; the store's or the sink's count of faults rose.
#[derive(Clone, Copy)]
pub struct Failed;

/// Why a file was not opened.
#[derive(Clone, Copy, Debug, PartialEq, Eq, Error)]
#[error("{}", self.text())]
pub enum OpenFault {
    /// The store has no file of that name.
    Absent,
    /// The file could not be opened.
    Failed,
}

impl OpenFault {
    /// What the fault is called, in few words.
    pub fn text(self) -> &'static str
        ensures { result.now ≡ open_text self }
    {
        match self {
            OpenFault::Absent => "no such file",
            OpenFault::Failed => "cannot open",
        }
    }
}

/// Named files, read one at a time from front to back.
///
/// A store may tell its files, as a finite map from names to bytes, and may tell what is left of
/// the current file. Each count stands in a `u64`; one of faults that has reached the end stays.
pub trait Store {
    /// The files, where the store tells them.
    ghost files: { Self → Option Folder };

    /// Whether a file is current.
    ghost current: { Self → Bool };

    /// The bytes of the current file that were not yet read, where the store tells them.
    ghost left: { Self → Option (List ℕ) };

    /// How many calls of `open` there were.
    ghost opens: { Self → ℕ };

    /// How many faults there were.
    ghost faults: { Self → ℕ };

    /// Makes the named file current; the name `-` is standard input.
    /// After a refusal no file is current.
    ///
    /// `Absent` comes where a store that tells its files lacks the name; in another store it comes
    /// only where `faults` rose. `Failed` comes only where `faults` rose. A file that is opened raises none.
    fn open(&mut self, name: &str) -> Result<(), OpenFault>
        requires { opens self.old < 2 ^ 64 - 1 }
        ensures files { files self.new ≡ files self.old }
        ensures current { current self.new ≡ is_ok result }
        ensures opens { opens self.new ≡ opens self.old + 1 }
        ensures faults { faults self.old ≤ faults self.new }
        ensures left { WhereTold (files self.old)
            (λ folder. IsLeftOf folder name.now (left self.new) result) }
        ensures found { WhereTold (files self.old)
            (λ folder. OnOk result (IsSome (file_of folder name.now))) }
        ensures absent { WhereTold (files self.old)
            (λ folder. TellsAbsent folder name.now result) }
        ensures sound { OnOk result (faults self.new ≡ faults self.old) }
        ensures absent_untold { files self.old ≡ None → result ≡ Err OpenFault.Absent
            → Faulted (faults self.old) (faults self.new) }
        ensures failed { result ≡ Err OpenFault.Failed → Faulted (faults self.old) (faults self.new) };

    /// Fills a front of the buffer with the next bytes of the current file and answers their
    /// number; 0 is the end of the file. After a failed read the file stands where it stood, and
    /// the buffer may hold anything.
    ///
    /// `Failed` comes only where `faults` rose, and a read that gives bytes or the end raises none.
    fn read(&mut self, buf: &mut [u8]) -> Result<usize, Failed>
        requires current { IsTrue (current self.old) }
        requires room { 0 < length buf.old }
        ensures files { files self.new ≡ files self.old }
        ensures current { current self.new ≡ current self.old }
        ensures opens { opens self.new ≡ opens self.old }
        ensures faults { faults self.old ≤ faults self.new }
        ensures count { IfOk result (λ count. count ≤ length buf.old) }
        ensures taken { IfOk result (IsReadInto buf.new (left self.old) (left self.new)) }
        ensures end { IfOk result (IsEndAt (left self.old)) }
        ensures kept { OnErr result (left self.new ≡ left self.old) }
        ensures sound { OnOk result (faults self.new ≡ faults self.old) }
        ensures failed { OnErr result (Faulted (faults self.old) (faults self.new)) };

    /// A store that tells its files tells what is left wherever a file is current.
    ghost tells_left: { (s : Self) → IsSome (files s) → IsTrue (current s) → IsSome (left s) };
}
