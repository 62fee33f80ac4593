//! The frames of a table's stacks and instructions, and what a frame is called.
ghost use Rattle.std.specs.Prelude.{◌≡◌, ℕ, ◌+◌, ◌-◌, ◌<◌, ◌≤◌, ◌↔◌, ◌++◌, All, length, vec_len, None, Some, IsNone, IsSome, IfSome, OnOk, OnErr, slice_get};
ghost use Rattle.std.specs.Option.{option_copied};
ghost use Rattle.ht_trace.specs.CallAnswers.{IsCalledFrom};
ghost use Rattle.ht_trace.specs.FrameText.{HasNoFunction, frame_text, function_at};
ghost use Rattle.stack_table.specs.Stack.{most_frames};
ghost use Rattle.ht_trace.specs.IsFrame.{IsFrame};
ghost use Rattle.ht_trace.specs.LineAnswers.{AreFramesOf};
ghost use Rattle.ht_trace.specs.StackFrames.{frames_of, stack_frames};

use crate::frame::{FrameAt, Style};
use crate::frame_text::put_text;
use crate::stack_frames::{replace_by_instruction, replace_by_stack};
use crate::tables::Tables;
use hp_num::NoMemory;

impl Tables {
    /// Replaces `out` by the frames of a stack, from the innermost on: those of its node's instruction, then those of
    /// its parents'. Stack 0 has one frame of its own. The stack must be below `stacks()`. On `NoMemory`, `out` holds
    /// what it held before.
    pub fn frames_into(&self, stack: u32, out: &mut Vec<FrameAt>) -> Result<(), NoMemory>
        requires { stack ≤ length self.now.nodes }
        ensures of_tables { OnOk result
            (out.new.items ≡ stack_frames self.now.instructions self.now.nodes stack) }
        ensures frames { OnOk result (AreFramesOf self.now stack out.new.items) }
        ensures places { OnOk result (All (λ at. IsFrame self.now at) out.new.items) }
        ensures some_frame { OnOk result (1 ≤ vec_len out.new) }
        ensures few { OnOk result (vec_len out.new ≤ most_frames) }
        ensures unchanged { OnErr result (out.new.items ≡ out.old.items) }
    {
        replace_by_stack(&self.instructions, &self.nodes, stack, out)
    }

    /// The instruction of a stack's innermost node, and the stack that it is called from, 0 where there is none: the
    /// stack's frames are those of the instruction, and then those of that stack. `None` exactly for stack 0, and where no
    /// stack has that number. It takes no memory.
    pub fn node(&self, n: u32) -> Option<(u32, u32)>
        ensures found { IsSome result ↔ ((1 ≤ n) × (n ≤ length self.now.nodes)) }
        ensures frames { IfSome result (λ node. IsCalledFrom self.now n node) }
        ensures instruction { IfSome result (λ node. node.0 ≤ length self.now.instructions) }
        ensures some_frame { IfSome result
            (λ node. 1 ≤ length (frames_of self.now.instructions node.0)) }
        ensures lower { IfSome result (λ node. node.1 < n) }
    {
        let (instruction, parent) = self.nodes.node(n)?;
        // Says how many instructions there may be.
        let _count = self.instructions.len();
        Some((instruction as u32, parent))
    }

    /// The innermost frame of a stack: the first that `frames_into` gives. The stack must be below `stacks()`. It takes no
    /// memory, and no time that grows with the stack's length.
    pub fn innermost_frame(&self, stack: u32) -> FrameAt
        requires { stack ≤ length self.now.nodes }
        ensures first { slice_get
            (stack_frames self.now.instructions self.now.nodes stack) 0 ≡ Some result }
        ensures place { IsFrame self.now result }
        ensures own { 0 < stack → result.index ≡ 0 }
    {
        match self.node(stack) {
            Some((instruction, _)) => FrameAt {
                instruction,
                index: 0,
            },
            None => FrameAt {
                instruction: 0,
                index: 1,
            },
        }
    }

    /// Replaces `out` by the frames of an instruction, from the innermost on; instruction 0 has one. The instruction must
    /// be at most `instructions()`. On `NoMemory`, `out` holds what it held before.
    pub fn instruction_frames_into(
        &self,
        instruction: u32,
        out: &mut Vec<FrameAt>,
    ) -> Result<(), NoMemory>
        requires { instruction ≤ length self.now.instructions }
        ensures of_tables { OnOk result
            (out.new.items ≡ frames_of self.now.instructions instruction) }
        ensures places { OnOk result (All (λ at. IsFrame self.now at) out.new.items) }
        ensures some_frame { OnOk result (1 ≤ vec_len out.new) }
        ensures unchanged { OnErr result (out.new.items ≡ out.old.items) }
    {
        replace_by_instruction(&self.instructions, instruction, out)
    }

    /// Appends the text of a frame that `frames_into` gave, in the style. On `NoMemory`, `out` holds what it held before.
    pub fn put_frame(&self, at: &FrameAt, style: Style, out: &mut Vec<u8>) -> Result<(), NoMemory>
        requires { IsFrame self.now at.now }
        ensures appended { OnOk result
            (out.new.items ≡ out.old.items ++ frame_text style self.now at.now) }
        ensures unchanged { OnErr result (out.new.items ≡ out.old.items) }
    {
        put_text(&self.strings, &self.instructions, at, style, out)
    }

    /// The name of the function of a frame that `frames_into` gave: `None` exactly where the function is 0, and for the
    /// frames of stack 0 and of instruction 0. It takes no memory.
    pub fn frame_function(&self, at: &FrameAt) -> Option<&[u8]>
        requires { IsFrame self.now at.now }
        ensures name { option_copied result ≡ function_at self.now at.now }
        ensures none { IsNone result ↔ HasNoFunction self.now at.now }
    {
        let found = self.instructions.frame(at)?;
        self.strings.text(found.frame.function)
    }
}
