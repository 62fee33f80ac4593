//! One line of a script, by itself. Which blocks are live, and how many events there are, is no part of it.
ghost use Rattle.std.specs.Prelude.{◌≡◌, ◌^◌, ◌≤◌, true, [], None, IfErr, IfNone, IfSome, OnOk, option_map};
ghost use Rattle.ht_lines.specs.Fields.{field_ends, fields, numbers};
ghost use Rattle.record_scripts.specs.Skipped.{is_skipped};
ghost use Rattle.record_scripts.specs.ScriptLine.{are_ips, block_of, free_of, sized_of, turn_in, turn_of};
ghost use Rattle.record_scripts.specs.BlockSaid.{block_said, sized_said};
ghost use Rattle.record_scripts.specs.ScriptFaults.{RefusesIps};
ghost use Rattle.record_scripts.specs.ScriptTurns.{turn_by, turn_said};
ghost use Rattle.record_scripts.specs.Turns.{IsBounded};

use crate::fault::ScriptFault;
use crate::number::first_number;
use ht_lines::field;

/// The greatest size of a block in bytes.
const MAX_SIZE: u64 = 1 << 32;

/// The greatest number of ips of one line.
const MAX_IPS: usize = 256;

/// What a line of a script says, which is a turn of its thread, but for its ips.
#[derive(Clone, Copy)]
pub enum ScriptLine {
    /// `a`: allocates a block of so many bytes.
    Allocation { id: u64, size: u64 },
    /// `f`: frees a block.
    Free { id: u64 },
    /// `r`: frees a block, and allocates one of so many bytes under its ID.
    Reallocation { id: u64, size: u64 },
}

/// The ID and the size of a block.
#[derive(Clone, Copy)]
struct Block {
    id: u64,
    size: u64,
}

/// Whether a line says nothing: it is empty or a comment.
pub fn is_skipped(line: &[u8]) -> bool
    ensures { result ≡ is_skipped line.now }
{
    match line {
        [] => true,
        [first, ..] => *first == b'#',
    }
}

/// What a line says that is neither empty nor a comment, and the text of its ips, which are still to be read; a free has none.
/// `None` exactly where no ips make it a line of a script.
pub fn read_script_line(line: &[u8]) -> Option<(ScriptLine, &[u8])>
    ensures said { IfSome result
        (λ found. turn_in line.now ≡ turn_by found.0 found.1.now) }
    ensures bounded { IfSome result (λ found. IsBounded (turn_said found.0 [])) }
    ensures none { IfNone result (turn_in line.now ≡ None) }
{
    let [kind, rest @ ..] = line else {
        return None;
    };
    if !ends_kind(rest) {
        return None;
    }
    read_turn(*kind, rest)
}

/// What a line of a kind says, and the text of its ips.
#[tactic(auto, unfolding(crate::specs::ScriptLine::turn_of))]
fn read_turn(kind: u8, rest: &[u8]) -> Option<(ScriptLine, &[u8])>
    ensures said { IfSome result
        (λ found. turn_of kind (fields rest.now) ≡ turn_by found.0 found.1.now) }
    ensures bounded { IfSome result (λ found. IsBounded (turn_said found.0 [])) }
    ensures none { IfNone result (turn_of kind (fields rest.now) ≡ None) }
{
    match kind {
        b'a' => match read_block(rest) {
            Some((Block { id, size }, ips)) => Some((ScriptLine::Allocation { id, size }, ips)),
            None => None,
        },
        b'r' => match read_block(rest) {
            Some((Block { id, size }, ips)) => Some((ScriptLine::Reallocation { id, size }, ips)),
            None => None,
        },
        b'f' => match read_free(rest) {
            Some(id) => Some((ScriptLine::Free { id }, &[])),
            None => None,
        },
        _ => None,
    }
}

fn ends_kind(rest: &[u8]) -> bool
    ensures { result ≡ field_ends rest.now }
{
    match rest {
        [] => true,
        [byte, ..] => *byte == b' ',
    }
}

/// The block that a line frees. A field that is no number counts as 0 where it is taken off, so 0 is looked at again.
fn read_free(rest: &[u8]) -> Option<u64>
    ensures { result ≡ free_of (fields rest.now) }
{
    let (id, after) = first_number(rest)?;
    if id == 0 {
        field(rest, 0)?;
    }
    match first_number(after) {
        Some(_) => None,
        None => Some(id),
    }
}

/// The block that a line allocates, and the text of its ips.
fn read_block(rest: &[u8]) -> Option<(Block, &[u8])>
    ensures said { IfSome result
        (λ found. block_of (fields rest.now) ≡ block_said found.0 found.1.now) }
    ensures few_bytes { IfSome result (λ found. found.0.size ≤ 2 ^ 32) }
    ensures none { IfNone result (block_of (fields rest.now) ≡ None) }
{
    let (block, ips) = read_size(rest)?;
    if block.size > MAX_SIZE {
        return None;
    }
    Some((block, ips))
}

/// The ID and the size of a block, and what follows them; 0 is looked at again, as in `read_free`.
fn read_size(rest: &[u8]) -> Option<(Block, &[u8])>
    ensures { option_map (λ found. sized_said found.0 found.1.now) result
        ≡ sized_of (fields rest.now) }
{
    let (id, after) = first_number(rest)?;
    let (size, stack) = first_number(after)?;
    if id == 0 {
        field(rest, 0)?;
    }
    if size == 0 {
        field(rest, 1)?;
    }
    Some((Block { id, size }, stack))
}

/// Reads the ips of a stack into `ips`, in the place of what that held.
///
/// - `BadScriptLine` exactly where a field is no number or 0, or there are more than 256;
/// - `NoMemory` only where memory is wanting.
pub fn read_ips(stack: &[u8], ips: &mut Vec<u64>) -> Result<(), ScriptFault>
    ensures said { OnOk result (ips.new.items ≡ numbers stack.now) }
    ensures are_ips { OnOk result (are_ips (numbers stack.now) ≡ true) }
    ensures fault { IfErr result (RefusesIps stack.now) }
{
    ips.clear();
    let mut rest = stack;
    'ips: while let Some((ip, after)) = first_number(rest) {
        if ip == 0 || ips.len() == MAX_IPS {
            return Err(ScriptFault::BadScriptLine);
        }
        ips.push(ip)?;
        rest = after;
    }
    Ok(())
}
