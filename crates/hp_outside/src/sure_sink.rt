//! A sink that never fails: it takes each piece whole and keeps none of it.
ghost use Rattle.std.specs.Prelude.{◌≡◌, None, length};

use crate::sink::Sink;
use crate::store::Failed;

/// A sink that never fails, and keeps and tells nothing.
#[derive(Drop)]
pub struct SureSink {
    _private: (),
}

impl SureSink {
    /// A new sink. All are alike.
    pub fn new() -> SureSink
        ensures { ⟦<SureSink as Sink>⟧.faults result ≡ 0 }
    {
        SureSink { _private: () }
    }
}

impl Sink for SureSink {
    ghost written = { λ _. None };

    ghost faults = { λ _. 0 };

    /// Takes the whole piece.
    fn write(&mut self, piece: &[u8]) -> Result<usize, Failed>
        ensures { result ≡ Ok (length piece.now) }
    {
        Ok(piece.len())
    }

    /// Does nothing.
    fn flush(&mut self) -> Result<(), Failed>
        ensures { result ≡ Ok tt }
    {
        Ok(())
    }
}
