//! Frames: what an instruction line says of one, and how those of a stack are named. Their texts are no part of it.

/// One frame of an instruction, as its line gives it: the numbers of the strings of function and file, 0 for none,
/// and the line in the file.
#[derive(Clone, Copy)]
pub struct Frame {
    pub function: u32,
    pub file: u32,
    pub line: u64,
}

/// The place of a frame of a stack: its instruction, and its place there, from 0 for the innermost frame.
///
/// Instruction 0, which stands for none, has the one frame 0. Place 1 of instruction 0 is the frame of stack 0.
#[derive(Clone, Copy)]
pub struct FrameAt {
    pub instruction: u32,
    pub index: u32,
}

/// A frame that is named: its instruction's pointer and module, and its own numbers.
#[derive(Clone, Copy)]
pub struct FrameFound {
    pub ip: u64,
    pub module_string: u32,
    pub frame: Frame,
}

/// How the text of a frame is written.
#[derive(Clone, Copy)]
pub enum Style {
    /// `FUNCTION (FILE:LINE)`.
    Plain,
    /// `0xIP: FUNCTION (FILE:LINE)`.
    Addressed,
}
