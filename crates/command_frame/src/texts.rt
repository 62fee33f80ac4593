//! The texts of a program that take no memory.

/// What a program calls itself, and its messages that name no file. Each but the name ends with a line feed.
#[derive(Clone, Copy)]
pub struct ProgramTexts {
    /// The name with which each message of a fault begins.
    pub name: &'static str,
    /// How the program is called.
    pub usage: &'static [u8],
    /// Memory was wanting.
    pub out_of_memory: &'static [u8],
    /// Standard output took less than was to be written.
    pub write_failed: &'static [u8],
}
