//! In which frames a pattern of suppressions stands. The patterns are asked once for a frame, however many stacks have it.
ghost use Rattle.std.specs.Prelude.{◌≡◌, All, IfOk};
ghost use Rattle.ht_trace.specs.IsFrame.{IsFrame};
ghost use Rattle.ht_print.specs.MetFrames.{AreMet, meets_frame, meets_frames, met_instructions};
ghost use Rattle.ht_print.specs.MetPatterns.{AreLeastOf};

use crate::least_patterns::LeastPatterns;
use hp_num::NoMemory;
use ht_trace::{FrameAt, Style, Tables};
use std::alloc::Global;

/// For the frame of stack 0, and for each instruction, whether a pattern stands in a frame's text.
#[derive(Drop)]
pub(crate) struct MetFrames {
    pub(crate) no_stack: bool,
    pub(crate) instructions: Vec<bool>,
}

impl MetFrames {
    /// The answers for the tables and their patterns, or `NoMemory`.
    pub(crate) fn of(alloc: Global, tables: &Tables) -> Result<MetFrames, NoMemory>
        ensures { IfOk result (λ met. AreMet tables.now met) }
    {
        let least = LeastPatterns::of(alloc, tables)?;
        let mut text = Vec::new(alloc);
        let frame = FrameAt {
            instruction: 0,
            index: 1,
        };
        let no_stack = meets_frame(tables, &least, &frame, &mut text)?;
        let instructions = met_instructions(alloc, tables, &least)?;
        Ok(MetFrames {
            no_stack,
            instructions,
        })
    }
}

/// For each instruction whether a pattern stands in a frame's text, or `NoMemory`.
fn met_instructions(
    alloc: Global,
    tables: &Tables,
    least: &LeastPatterns<'_>,
) -> Result<Vec<bool>, NoMemory>
    requires least { AreLeastOf tables.now.patterns least.now }
    ensures { IfOk result (λ met. met.items ≡ met_instructions tables.now) }
{
    let mut frames = Vec::new(alloc);
    let mut text = Vec::new(alloc);
    let count = tables.instructions() as usize + 1;
    let mut met = Vec::with_capacity(alloc, count)?;
    'each_instruction: for n in 0..count {
        tables.instruction_frames_into(n as u32, &mut frames)?;
        met.push(meets_frames(tables, least, &frames, &mut text)?)?;
    }
    Ok(met)
}

/// Whether a pattern stands in the text of one of the frames. `text` is overwritten.
fn meets_frames(
    tables: &Tables,
    least: &LeastPatterns<'_>,
    frames: &[FrameAt],
    text: &mut Vec<u8>,
) -> Result<bool, NoMemory>
    requires least { AreLeastOf tables.now.patterns least.now }
    requires frames { All (λ at. IsFrame tables.now at) frames.now }
    ensures { IfOk result (λ answer. answer ≡ meets_frames tables.now frames.now) }
{
    'each_frame: for at in frames {
        if meets_frame(tables, least, at, text)? {
            return Ok(true);
        }
    }
    Ok(false)
}

/// Whether a pattern stands in the text of the frame, which replaces `text`.
fn meets_frame(
    tables: &Tables,
    least: &LeastPatterns<'_>,
    at: &FrameAt,
    text: &mut Vec<u8>,
) -> Result<bool, NoMemory>
    requires least { AreLeastOf tables.now.patterns least.now }
    requires frame { IsFrame tables.now at.now }
    ensures { IfOk result (λ answer. answer ≡ meets_frame tables.now at.now) }
{
    text.clear();
    tables.put_frame(at, Style::Plain, text)?;
    Ok(least.stand_in(text))
}
