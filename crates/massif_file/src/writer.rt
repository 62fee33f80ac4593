//! A profile written as the text of Massif's output file. Reading such a text is the reader's part.
ghost use Rattle.std.specs.Prelude.{◌≡◌, ◌+◌, ◌^◌, ◌<◌, ◌≤◌, [], ◌∷◌, ◌++◌, take, drop, decimal, OnOk, OnErr};
ghost use Rattle.massif_file.specs.Appended.{KeepsFront, at_level, node_head, separated};
ghost use Rattle.massif_file.specs.Blanks.{blanks};
ghost use Rattle.massif_file.specs.Fields.{unit_name, mark_name};
ghost use Rattle.massif_file.specs.TreeLine.{line_of};
ghost use Rattle.massif_file.specs.MassifText.{head_lines, mark_lines, massif_text, node_text, size_lines, snap_lines, snaps_lines, text_of, tree_lines};

use crate::levels::Levels;
use crate::lists::Snaps;
use crate::profile::{HeapTree, Profile, Snap, TimeUnit, TreeFields};
use crate::tree::Tree;
use hp_num::{NoMemory, decimal_texts, put_bytes, put_dec};
use itoa::write_digits;

/// The greatest level whose blanks are written together with a line's numbers, which is the last level of a tree that is read.
const USUAL_LEVEL: usize = 256;

/// The bytes of the longest text before a label at such a level: a line feed, the blanks, and two numbers of 20 digits at most
/// with what stands around them.
const LONGEST_FRONT: usize = 1 + USUAL_LEVEL + 44;

/// Appends the profile's text in the form of Massif's output file. On `NoMemory`, `out` holds what it held before.
///
/// A profile that is to be read again meets `IsWritable`.
pub fn put_profile(profile: &Profile, out: &mut Vec<u8>) -> Result<(), NoMemory>
    ensures appended { OnOk result (out.new.items ≡ out.old.items ++ massif_text profile.now) }
    ensures unchanged { OnErr result (out.new.items ≡ out.old.items) }
{
    let before = out.len();
    let result = put_all(out, profile);
    if result.is_err() {
        out.truncate(before);
    }
    result
}

fn put_all(out: &mut Vec<u8>, profile: &Profile) -> Result<(), NoMemory>
    ensures kept { KeepsFront out.old out.new }
    ensures appended { OnOk result (out.new.items ≡ out.old.items ++ massif_text profile.now) }
{
    put_line(out, b"desc: ", profile.desc.bytes())?;
    put_line(out, b"cmd: ", profile.cmd.bytes())?;
    put_line(out, b"time_unit: ", unit_name(profile.unit))?;
    put_snaps(out, &profile.snaps)
}

fn put_snaps(out: &mut Vec<u8>, snaps: &Snaps) -> Result<(), NoMemory>
    ensures kept { KeepsFront out.old out.new }
    ensures appended { OnOk result
        (out.new.items ≡ out.old.items ++ text_of (snaps_lines 0 snaps.now)) }
{
    for (n, snap) in snaps.as_slice().iter().enumerate() {
        put_snap(out, n as u64, snap)?;
    }
    Ok(())
}

fn put_snap(out: &mut Vec<u8>, n: u64, snap: &Snap) -> Result<(), NoMemory>
    ensures kept { KeepsFront out.old out.new }
    ensures appended { OnOk result
        (out.new.items ≡ out.old.items ++ text_of (snap_lines n snap.now)) }
{
    put_head(out, n, snap.time)?;
    put_sizes(out, snap)?;
    put_marked_tree(out, snap)
}

fn put_head(out: &mut Vec<u8>, n: u64, time: u64) -> Result<(), NoMemory>
    ensures kept { KeepsFront out.old out.new }
    ensures appended { OnOk result (out.new.items ≡ out.old.items ++ text_of (head_lines n time)) }
{
    put_separated(out, b"snapshot=", n)?;
    put_separated(out, b"time=", time)
}

/// A separator, and a line of a key and a number.
fn put_separated(out: &mut Vec<u8>, key: &[u8], n: u64) -> Result<(), NoMemory>
    ensures kept { KeepsFront out.old out.new }
    ensures appended { OnOk result
        (out.new.items ≡ out.old.items ++ text_of (separated key.now n)) }
{
    put_bytes(out, b"#-----------\n")?;
    put_number(out, key, n)
}

fn put_sizes(out: &mut Vec<u8>, snap: &Snap) -> Result<(), NoMemory>
    ensures kept { KeepsFront out.old out.new }
    ensures appended { OnOk result
        (out.new.items ≡ out.old.items ++ text_of (size_lines snap.now)) }
{
    put_number(out, b"mem_heap_B=", snap.heap)?;
    put_number(out, b"mem_heap_extra_B=", snap.extra)?;
    put_number(out, b"mem_stacks_B=", snap.stacks)
}

fn put_marked_tree(out: &mut Vec<u8>, snap: &Snap) -> Result<(), NoMemory>
    ensures kept { KeepsFront out.old out.new }
    ensures appended { OnOk result
        (out.new.items ≡ out.old.items ++ text_of (mark_lines snap.now)) }
{
    put_bytes(out, b"heap_tree=")?;
    put_bytes(out, mark_name(snap.mark))?;
    put_tree(out, &snap.tree)
}

/// The line feed of the line before, and the lines of the tree.
fn put_tree(out: &mut Vec<u8>, tree: &Tree) -> Result<(), NoMemory>
    ensures kept { KeepsFront out.old out.new }
    ensures appended { OnOk result
        (out.new.items ≡ out.old.items ++ (10 ∷ text_of (tree_lines (1 ∷ []) tree.now))) }
{
    let mut levels = Levels::new(*out.allocator());
    levels.begin()?;
    'each_line: for place in 0..tree.len() {
        let line = tree.at(place);
        put_node(out, levels.len().saturating_sub(1), &line)?;
        levels.line(line.children)?;
    }
    put_bytes(out, b"\n")
}

/// The line feed of the line before, and the line at this level but for its own line feed.
fn put_node(out: &mut Vec<u8>, level: usize, line: &TreeFields) -> Result<(), NoMemory>
    requires few { level < 2 ^ 63 }
    ensures kept { KeepsFront out.old out.new }
    ensures appended { OnOk result
        (out.new.items ≡ out.old.items ++ at_level level (node_text (line_of line.now))) }
{
    put_front(out, level, u64::from(line.children), line.bytes)?;
    put_bytes(out, line.label)
}

/// What stands before the label of a line at this level, and before it the line feed of the line before.
fn put_front(out: &mut Vec<u8>, level: usize, children: u64, bytes: u64) -> Result<(), NoMemory>
    requires few { level < 2 ^ 63 }
    ensures kept { KeepsFront out.old out.new }
    ensures appended { OnOk result
        (out.new.items ≡ out.old.items ++ at_level level (node_head children bytes)) }
{
    let mut front = [b' '; LONGEST_FRONT];
    let head = write_head(&mut front, children, bytes);
    if level > USUAL_LEVEL {
        return put_parts(out, level, &front[head..]);
    }
    let start = head - level - 1;
    front[start] = b'\n';
    put_bytes(out, &front[start..])
}

/// The same part by part, for any level.
fn put_parts(out: &mut Vec<u8>, level: usize, head: &[u8]) -> Result<(), NoMemory>
    requires few { level < 2 ^ 63 }
    ensures kept { KeepsFront out.old out.new }
    ensures appended { OnOk result
        (out.new.items ≡ out.old.items ++ at_level level head.now) }
{
    put_bytes(out, b"\n")?;
    put_blanks(out, level)?;
    put_bytes(out, head)
}

/// Writes what stands between a line's blanks and its label at the end of `front`, and answers where it starts.
fn write_head(front: &mut [u8; LONGEST_FRONT], children: u64, bytes: u64) -> usize
    ensures room { 257 ≤ result }
    ensures within { result < 301 }
    ensures written { drop result front.new ≡ node_head children bytes }
    ensures before { take result front.new ≡ take result front.old }
{
    front[LONGEST_FRONT - 1] = b' ';
    let bytes_at = write_number(front, LONGEST_FRONT - 1, b' ', bytes);
    front[bytes_at - 1] = b':';
    write_number(front, bytes_at - 1, b'n', children)
}

/// Writes a byte and the digits of the number before a place of `front`, and answers where they start.
fn write_number(front: &mut [u8; LONGEST_FRONT], end: usize, first: u8, number: u64) -> usize
    requires room { 21 ≤ end }
    requires held { end ≤ 301 }
    ensures below { result < end }
    ensures most { end ≤ result + 21 }
    ensures written { drop result front.new ≡ first ∷ (decimal number ++ drop end front.old) }
    ensures before { take result front.new ≡ take result front.old }
{
    // Says that the digits are few.
    decimal_texts();
    let start = write_digits(number, front, end) - 1;
    front[start] = first;
    start
}

fn put_blanks(out: &mut Vec<u8>, count: usize) -> Result<(), NoMemory>
    requires few { count < 2 ^ 63 }
    ensures kept { KeepsFront out.old out.new }
    ensures appended { OnOk result (out.new.items ≡ out.old.items ++ blanks count) }
{
    out.resize(out.len() + count, b' ')?;
    Ok(())
}

/// A line of a key and a number.
fn put_number(out: &mut Vec<u8>, key: &[u8], n: u64) -> Result<(), NoMemory>
    ensures kept { KeepsFront out.old out.new }
    ensures appended { OnOk result
        (out.new.items ≡ out.old.items ++ text_of ((key.now ++ decimal n) ∷ [])) }
{
    put_bytes(out, key)?;
    put_dec(out, n)?;
    put_bytes(out, b"\n")
}

fn put_line(out: &mut Vec<u8>, key: &[u8], text: &[u8]) -> Result<(), NoMemory>
    ensures kept { KeepsFront out.old out.new }
    ensures appended { OnOk result
        (out.new.items ≡ out.old.items ++ text_of ((key.now ++ text.now) ∷ [])) }
{
    put_bytes(out, key)?;
    put_bytes(out, text)?;
    put_bytes(out, b"\n")
}

fn unit_name(unit: TimeUnit) -> &'static [u8]
    ensures { result.now ≡ unit_name unit }
{
    match unit {
        TimeUnit::Instructions => b"i",
        TimeUnit::Milliseconds => b"ms",
        TimeUnit::Bytes => b"B",
        TimeUnit::Events => b"e",
    }
}

fn mark_name(mark: HeapTree) -> &'static [u8]
    ensures { result.now ≡ mark_name mark }
{
    match mark {
        HeapTree::Empty => b"empty",
        HeapTree::Detailed => b"detailed",
        HeapTree::Peak => b"peak",
    }
}
