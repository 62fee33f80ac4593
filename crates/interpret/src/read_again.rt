//! What the interpretation of a raw trace is when it is read as an interpreted trace, over whole lists of lines, for callers
//! whose contracts speak of it.
ghost use Rattle.interpret.specs.ReadAgain.{IsReadAgain, OfInterpretable};

use hp_num::hexadecimal_texts;

/// What is written is read again as what was meant. It does nothing: a caller that speaks of the events of the lines that were
/// written calls it for its clauses.
pub fn interpreted_traces()
    ensures { OfInterpretable IsReadAgain }
{
    hexadecimal_texts();
}
