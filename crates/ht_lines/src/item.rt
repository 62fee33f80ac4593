//! What a line of a trace says, and what may be wrong with it.
//!
//! The types alone; `read` has the grammar, and `write` the written forms.
ghost use Rattle.std.specs.Prelude.{◌≡◌};
ghost use Rattle.ht_lines.specs.FaultText.{fault_text};

use thiserror::Error;

/// What the lines of a trace refer to: addresses and sizes, or tables that stand in the trace itself. Both forms are this
/// format's own.
#[derive(Clone, Copy)]
pub enum Form {
    /// A node gives the address of its instruction, an allocation its size, node and address, and a free the address.
    Raw,
    /// Lines refer to the strings, instructions, nodes and infos before them by number.
    Interpreted,
}

/// Why a line is refused.
#[derive(Clone, Copy, Debug, PartialEq, Eq, Error)]
#[error("{}", self.text())]
pub enum Malformed {
    /// A byte other than a blank follows the kind, a field is no number, a number is too large, or a module's range
    /// ends above 2^64 - 1.
    BadField,
    /// The line has too few fields, or a number of them that the kind never has, where more could make it one.
    MissingField,
    /// The line has too many fields.
    ExtraField,
    /// The line is an allocation of a raw trace, where an interpreted one is read.
    NotInterpreted,
    /// The line is a string, an instruction, an info or an allocation of an interpreted trace, where a raw one is read.
    NotRaw,
    /// The file version isn't 1 to 3.
    BadVersion,
}

impl Malformed {
    /// What is wrong with the line, in few words.
    pub fn text(self) -> &'static str
        ensures { result.now ≡ fault_text self }
    {
        match self {
            Malformed::BadField => "bad field",
            Malformed::MissingField => "missing field",
            Malformed::ExtraField => "extra field",
            Malformed::NotInterpreted => "raw line",
            Malformed::NotRaw => "interpreted line",
            Malformed::BadVersion => "file version not 1 to 3",
        }
    }
}

/// What one line says. Texts, names and tails are parts of the line.
#[derive(Clone, Copy)]
pub enum Item<'a> {
    /// `v`: the version of heaptrack that wrote the trace, and that of the file, from 1 to 3, which is 1 where the
    /// line doesn't give it.
    Version {
        heaptrack: u64,
        file: u8,
    },
    /// `x`: the path of the executable.
    Executable {
        text: &'a [u8],
    },
    /// `X`: the command that was run.
    Command {
        text: &'a [u8],
    },
    /// `I`: the size of a page in bytes, and the number of pages.
    System {
        page: u64,
        pages: u64,
    },
    /// `s`: a string, numbered from 1.
    Str {
        text: &'a [u8],
    },
    /// `m -`: all modules are cleared.
    ModuleClear,
    /// `m`: a module, the address where it starts, and how many ranges it has. The tail has an offset from the start
    /// and a size in bytes for each range.
    Module {
        name: &'a [u8],
        start: u64,
        ranges: u32,
        tail: &'a [u8],
    },
    /// `i`: an instruction, numbered from 1: its address, and the string of its module, 0 for none. The tail has the
    /// frames from the innermost on, each as a function, a file and a line, where the first may be a function alone.
    /// `fields` counts all fields after the kind.
    Instr {
        ip: u64,
        module: u64,
        fields: u32,
        tail: &'a [u8],
    },
    /// `t`: a node, numbered from 1: an instruction, which in a raw trace is an address, and the parent node.
    Node {
        ip: u64,
        parent: u64,
    },
    /// `a`: allocations of so many bytes at a node. Infos are numbered from 0.
    Info {
        size: u64,
        trace: u64,
    },
    /// `+`: one allocation, of an info.
    Alloc {
        info: u64,
    },
    /// `-`: one block of an info is freed.
    Free {
        info: u64,
    },
    /// `+` of a raw trace: an allocation of so many bytes at a node, and its address.
    RawAlloc {
        size: u64,
        trace: u64,
        ptr: u64,
    },
    /// `-` of a raw trace: the block at an address is freed.
    RawFree {
        ptr: u64,
    },
    /// `c`: milliseconds since the start, at most 2^62.
    Clock {
        ms: u64,
    },
    /// `R`: resident memory in pages.
    Rss {
        pages: u64,
    },
    /// `A`: heaptrack was attached to a running process.
    Attached,
    /// `S`: a suppression.
    Suppress {
        text: &'a [u8],
    },
    /// `#`: a comment, all that follows the `#`.
    Comment {
        text: &'a [u8],
    },
    /// An empty line, or a line of another kind.
    Other {
        line: &'a [u8],
    },
}
