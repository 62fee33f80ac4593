//! The frames that the texts of a symbol say, one after another.
ghost use Rattle.std.specs.Prelude.{◌≡◌, ◌<◌, ◌∷◌, length, None, IfSome};
ghost use Rattle.interpret.specs.FrameKept.{frame_kept, frames_in};
ghost use Rattle.interpret.specs.Resolved.{frames_of};
ghost use Rattle.interpret.specs.SymbolLine.{fields};

use crate::symbol_line::next_field;
use hp_num::parse_dec;

/// A file, and the line in it.
#[derive(Clone, Copy)]
pub struct SourcePlace<'a> {
    pub file: &'a [u8],
    pub line: u64,
}

/// A function, and where it is known its place.
#[derive(Clone, Copy)]
pub struct SymbolFrame<'a> {
    pub function: &'a [u8],
    pub place: Option<SourcePlace<'a>>,
}

/// Takes the first frame off the texts of a symbol: that frame, and the texts of the others, where there are any.
pub fn next_frame(texts: &[u8]) -> (SymbolFrame<'_>, Option<&[u8]>)
    ensures frames { frames_of (fields texts.now) ≡ frame_kept result.0 ∷ frames_in result.1 }
    ensures shorter { IfSome result.1 (λ rest. length rest.now < length texts.now) }
{
    let (function, after) = next_field(texts);
    let Some(after) = after else {
        return (without_place(function), None);
    };
    let (file, after) = next_field(after);
    let Some(after) = after else {
        return (without_place(function), None);
    };
    let (line, rest) = next_field(after);
    let line = parse_dec(line).unwrap_or(0);
    let place = Some(SourcePlace { file, line });
    (SymbolFrame { function, place }, rest)
}

/// The frame of a function alone.
fn without_place(function: &[u8]) -> SymbolFrame<'_>
    ensures { frame_kept result ≡ record { function = function.now; place = None } }
{
    SymbolFrame {
        function,
        place: None,
    }
}
