//! The instructions of a trace, by their numbers from 1, with their frames.
//! How the frames stand in a line is the part of `push_frames`.
ghost use Rattle.std.specs.Prelude.{◌≡◌, ℕ, ◌+◌, ◌-◌, ◌^◌, ◌<◌, ◌≤◌, List, [], ◌∷◌, ◌++◌, length, take, None, Some, IfErr, IfOk, IfSome, OnOk, OnErr};
ghost use Rattle.ht_lines.specs.Fields.{fields};
ghost use Rattle.ht_trace.specs.FrameText.{frame_at};
ghost use Rattle.ht_trace.specs.Instruction.{Instruction, frame_count_of};
ghost use Rattle.ht_trace.specs.KeepsFrames.{KeepsFrames};
ghost use Rattle.ht_trace.specs.LineFault.{Tells};
ghost use Rattle.ht_trace.specs.SaidFrames.{frames_fault, tail_entry, tail_fault, tail_frames, tail_instruction};

use crate::error::LineError;
use crate::frame::{Frame, FrameAt, FrameFound};
use crate::push_frames::push_frames;
use std::alloc::Global;
use std::marker::Model;

/// The most instructions.
const MAX_INSTRUCTIONS: usize = u32::MAX as usize;

/// One instruction: its pointer, the string of its module, and which part of the frames is its own.
#[derive(Clone, Copy)]
pub struct InstructionEntry {
    ip: u64,
    start: usize,
    count: u32,
    module_string: u32,
}

/// The instructions. Contracts see it as the list of their pointers, modules and frames.
#[derive(Drop)]
pub struct InstructionTable {
    entries: Vec<InstructionEntry>,
    frames: Vec<Frame>,
}

impl Model for InstructionTable {
    ghost use Rattle.std.specs.Prelude.{List};
    ghost use Rattle.ht_trace.specs.Instruction.{Instruction};
    ghost use Rattle.ht_trace.specs.InstructionEntries.{AreInstructions, instructions_of};

    ghost Value = { List Instruction };

    ghost view = { λ table. instructions_of table.frames.items table.entries.items };

    ghost invariant = { λ table. AreInstructions table.frames.items table.entries.items };
}

impl InstructionTable {
    /// No instructions. It takes no memory.
    pub fn new(alloc: Global) -> Self
        ensures empty { result ≡ [] }
    {
        InstructionTable {
            entries: Vec::new(alloc),
            frames: Vec::new(alloc),
        }
    }

    /// Adds an instruction of a line with `field_count` fields after its kind, of which the `tail` has all but the
    /// first two.
    ///
    /// `UnknownString` comes exactly where the module, or a function or file of the tail, is above `strings`, and
    /// `TooMany` exactly where none is and 2^32 - 1 instructions are held.
    pub fn add(
        &mut self,
        ip: u64,
        module_string: u64,
        field_count: u32,
        tail: &[u8],
        strings: u32,
    ) -> Result<(), LineError>
        requires { length (fields tail.now) + 2 ≡ field_count }
        ensures added { OnOk result
            (self.new ≡ self.old ++ tail_instruction ip module_string tail.now ∷ []) }
        ensures no_fault { OnOk result
            (tail_fault strings (length self.old) module_string tail.now ≡ None) }
        ensures fault { IfErr result
            (λ error. Tells error (tail_fault strings (length self.old) module_string tail.now)) }
        ensures unchanged { OnErr result (self.new ≡ self.old) }
    {
        if module_string > u64::from(strings) {
            return Err(LineError::UnknownString);
        }
        let start = self.frames.len();
        let front = InstructionEntry {
            ip,
            start,
            count: 0,
            module_string: module_string as u32,
        };
        let entries = &mut self.entries;
        match append(entries, &mut self.frames, front, field_count, tail, strings) {
            Ok(()) => Ok(()),
            Err(error) => {
                self.frames.truncate(start);
                Err(error)
            }
        }
    }

    /// The frame at a place, where its instruction is held and has it.
    pub fn frame(&self, at: &FrameAt) -> Option<FrameFound>
        ensures { result ≡ frame_at self.now at.now }
    {
        let place = at.instruction.checked_sub(1)?;
        let entry = self.entries.get(place as usize)?;
        if at.index >= entry.count {
            return None;
        }
        Some(FrameFound {
            ip: entry.ip,
            module_string: entry.module_string,
            frame: self.frames[entry.start + at.index as usize],
        })
    }

    /// How many instructions there are, which is the greatest number of one.
    pub fn len(&self) -> u32
        ensures count { result ≡ length self.now }
        ensures bound { result ≤ 2 ^ 32 - 1 }
    {
        self.entries.len() as u32
    }

    /// How many frames the instruction of a number has, where it is held. Instruction 0 stands for none.
    pub fn frame_count(&self, n: u64) -> Option<u32>
        ensures count { result ≡ frame_count_of self.now n }
        ensures held { IfSome result (λ count. n ≤ length self.now) }
        ensures few { IfSome result (λ count. n < 2 ^ 32) }
    {
        if n == 0 {
            return Some(1);
        }
        let entry = self.entries.get(n as usize - 1)?;
        Some(entry.count)
    }
}

/// Appends the frames of a tail, and the entry of their instruction, which has none yet. After an error more frames may
/// stand at the end.
fn append(
    entries: &mut Vec<InstructionEntry>,
    frames: &mut Vec<Frame>,
    front: InstructionEntry,
    field_count: u32,
    tail: &[u8],
    strings: u32,
) -> Result<(), LineError>
    requires start { front.start ≡ length frames.old.items }
    requires whole { length (fields tail.now) + 2 ≡ field_count }
    requires few { length entries.old.items ≤ 2 ^ 32 - 1 }
    ensures frames { OnOk result
        (frames.new.items ≡ frames.old.items ++ tail_frames tail.now) }
    ensures entry { OnOk result
        (entries.new.items ≡ entries.old.items ++ tail_entry front frames.old.items tail.now ∷ []) }
    ensures few { OnOk result (length entries.new.items ≤ 2 ^ 32 - 1) }
    ensures no_fault { OnOk result
        (frames_fault strings (length entries.old.items) tail.now ≡ None) }
    ensures fault { IfErr result
        (λ error. Tells error (frames_fault strings (length entries.old.items) tail.now)) }
    ensures unchanged { OnErr result (entries.new.items ≡ entries.old.items) }
    ensures kept { KeepsFrames frames.old.items frames.new.items }
{
    push_frames(frames, field_count, tail, strings)?;
    if entries.len() == MAX_INSTRUCTIONS {
        return Err(LineError::TooMany);
    }
    let count = (frames.len() - front.start) as u32;
    entries.push(InstructionEntry { count, ..front })?;
    Ok(())
}
