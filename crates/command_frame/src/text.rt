//! Writing a text piece by piece while it is made. Which text it is, is the business of the commands.
ghost use Rattle.std.specs.Prelude.{◌≡◌, ◌<◌, ◌++◌, ℕ, List, [], Ok, true, false, OnOk};
ghost use Rattle.command_frame.specs.RunsTo.{RunsPieces};

use crate::context::RunContext;
use crate::halt::Halt;
use crate::lines::pass_on_piece;
use hp_num::NoMemory;
use hp_outside::{Failed, Sink};

/// What makes a text, one piece after another.
pub trait TextMaker {
    /// It may make a piece.
    ghost is_sound: { Self → Type 0 };

    /// What is yet to be made of the text.
    ghost rest: { Self → List ℕ };

    /// How many pieces are yet to be made, at most.
    ghost pieces: { Self → ℕ };

    /// Appends the next piece, and answers whether there was one: `false` is the end of the text. `NoMemory` where memory is
    /// wanting; the maker is then of no use, and `output` may hold anything.
    fn piece(&mut self, output: &mut Vec<u8>) -> Result<bool, NoMemory>
        requires sound { is_sound self.old }
        ensures sound { OnOk result (is_sound self.new) }
        ensures made { OnOk result
            (output.new.items ++ rest self.new ≡ output.old.items ++ rest self.old) }
        ensures fewer { result ≡ Ok true → pieces self.new < pieces self.old }
        ensures all { result ≡ Ok false → rest self.new ≡ [] };
}

/// Makes a text, and writes it but for the rest that is answered. It holds one piece at a time, and no more of the text than is
/// written at once.
pub fn run_text<M: TextMaker, O: Sink>(
    context: &RunContext,
    maker: &mut M,
    out: &mut O,
) -> Result<Vec<u8>, Halt>
    requires sound { M.is_sound maker.old }
    ensures { RunsPieces O.Sink context.now (M.rest maker.old) out.old out.new result }
{
    let mut buffer = Vec::new(context.alloc);
    'pieces: loop {
        match maker.piece(&mut buffer) {
            Ok(true) => match pass_on_piece(&mut buffer, out) {
                Ok(()) => {}
                Err(Failed) => return Err(Halt::write_failed()),
            },
            Ok(false) => return Ok(buffer),
            Err(NoMemory) => return Err(Halt::no_memory()),
        }
    }
}
