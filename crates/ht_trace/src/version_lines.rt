//! Which lines may stand before the version line. What a line says is the grammar's part.
ghost use Rattle.std.specs.Prelude.{◌≡◌};
ghost use Rattle.ht_trace.specs.VersionLines.{may_stand_first};

/// Whether a line may stand before the version line: a comment, or a line of the version line's kind.
pub fn may_stand_first(line: &[u8]) -> bool
    ensures { result ≡ may_stand_first line.now }
{
    match line {
        [] => false,
        [kind, ..] => *kind == b'#' || *kind == b'v',
    }
}
