//! The turns of scripts as they are kept. What a turn leaves in a trace is no part of it.
ghost use Rattle.std.specs.Prelude.{◌≡◌, ℕ, ◌+◌, ◌*◌, ◌^◌, ◌≤◌, ◌↔◌, [], IsTrue};
ghost use Rattle.record_scripts.specs.KeptTurn.{line_kept, wide};
ghost use Rattle.record_scripts.specs.ScriptTurns.{turn_numbered, turn_said};
ghost use Rattle.record_scripts.specs.Turns.{IsBounded};

use crate::script_line::ScriptLine;

/// How many numbers the lower part of an ID or of a size tells apart.
const LOW: u64 = 1 << 32;

/// What a thread does in one turn.
#[derive(Clone, Copy)]
pub enum TurnKind {
    Allocation,
    Free,
    Reallocation,
}

/// A turn: what its line says, but for its ips, and the node of the stack that these are. The node of a free is 0. An ID and a
/// size are kept in two parts each, so that a turn takes 20 bytes.
#[derive(Clone, Copy)]
pub struct TurnEntry {
    id_low: u32,
    id_high: u32,
    size_low: u32,
    pub node: u32,
    size_high: u8,
    kind: TurnKind,
}

impl TurnEntry {
    /// The turn of a line and a node.
    pub fn new(line: ScriptLine, node: u32) -> TurnEntry
        requires { IsBounded (turn_said line []) }
        ensures line { line_kept result ≡ line }
        ensures node { result.node ≡ node }
    {
        match line {
            ScriptLine::Allocation { id, size } => {
                TurnEntry::of_kind(TurnKind::Allocation, id, size, node)
            }
            ScriptLine::Free { id } => TurnEntry::of_kind(TurnKind::Free, id, 0, node),
            ScriptLine::Reallocation { id, size } => {
                TurnEntry::of_kind(TurnKind::Reallocation, id, size, node)
            }
        }
    }

    /// What its line says.
    pub fn line(&self) -> ScriptLine
        ensures { result ≡ line_kept self.now }
    {
        let id = wide(self.id_low, self.id_high);
        let size = wide(self.size_low, u32::from(self.size_high));
        match self.kind {
            TurnKind::Allocation => ScriptLine::Allocation { id, size },
            TurnKind::Free => ScriptLine::Free { id },
            TurnKind::Reallocation => ScriptLine::Reallocation { id, size },
        }
    }

    /// Whether the other is kept in the same way: it says the same, by the same node.
    pub fn is_kept_as(&self, other: &TurnEntry) -> bool
        ensures { IsTrue result ↔ (turn_numbered self.now ≡ turn_numbered other.now) }
    {
        if self.kind != other.kind {
            return false;
        }
        if self.id_low != other.id_low || self.id_high != other.id_high {
            return false;
        }
        match self.kind {
            TurnKind::Free => true,
            _ => {
                self.size_low == other.size_low
                    && self.size_high == other.size_high
                    && self.node == other.node
            }
        }
    }

    /// The turn of a kind with these numbers.
    fn of_kind(kind: TurnKind, id: u64, size: u64, node: u32) -> TurnEntry
        requires { size ≤ 2 ^ 32 }
        ensures kind { result.kind ≡ kind }
        ensures id { wide result.id_low result.id_high ≡ id }
        ensures size { wide result.size_low result.size_high ≡ size }
        ensures node { result.node ≡ node }
    {
        TurnEntry {
            id_low: (id % LOW) as u32,
            id_high: (id / LOW) as u32,
            size_low: (size % LOW) as u32,
            node,
            size_high: (size / LOW) as u8,
            kind,
        }
    }
}

/// The number of these parts.
fn wide(low: u32, high: u32) -> u64
    ensures { result ≡ wide low high }
{
    u64::from(low) + LOW * u64::from(high)
}
