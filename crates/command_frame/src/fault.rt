//! Faults as the messages tell them.
ghost use Rattle.std.specs.Prelude.{◌≡◌, ◌++◌, OnOk};
ghost use Rattle.command_frame.specs.Told.{Told};

use hp_num::NoMemory;

/// The status of a fault of the input.
#[derive(Clone, Copy)]
pub enum FaultStatus {
    /// The input is malformed.
    Malformed,
    /// The input is past a limit.
    PastLimit,
}

/// A fault of a line or of a file.
pub trait Fault: Drop {
    /// What is told of it.
    ghost told: { Self → Told };

    /// Appends what the fault is called. `NoMemory` where memory is wanting.
    fn put_text(&self, out: &mut Vec<u8>) -> Result<(), NoMemory>
        ensures { OnOk result (out.new.items ≡ out.old.items ++ (told self.now).text) };

    fn status(&self) -> FaultStatus
        ensures { (told self.now).status ≡ result };
}
