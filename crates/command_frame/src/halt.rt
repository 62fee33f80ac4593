//! Why a run ends before its output is whole: a message and a status that are ready to be delivered.
ghost use Rattle.std.specs.Prelude.{◌≡◌, ◌++◌, codes, IfOk, OnOk};
ghost use Rattle.command_frame.specs.Halts.{message_bytes, status_code};
ghost use Rattle.command_frame.specs.HaltsWith.{HaltsAtFile, HaltsAtLine, HaltsUnreadable, SaysOfFile, SaysOfLine};
ghost use Rattle.command_frame.specs.Texts.{texts_of};
ghost use Rattle.command_frame.specs.Told.{code_of};

use crate::fault::{Fault, FaultStatus};
use crate::texts::ProgramTexts;
use hp_num::{NoMemory, put_bytes, put_dec};
use std::alloc::Global;

/// What is written to standard error. Three of the messages take no memory.
#[derive(Drop)]
pub enum Message {
    /// How the program is called.
    Usage,
    /// Memory was wanting.
    OutOfMemory,
    /// A write to standard output failed.
    WriteFailed,
    /// A fault of a file, or at a line of it.
    Fault(Vec<u8>),
}

impl Message {
    /// The bytes of the message.
    pub fn bytes(&self, texts: &ProgramTexts) -> &[u8]
        ensures { result.now ≡ message_bytes (texts_of texts.now) self.now }
    {
        match self {
            Message::Usage => texts.usage,
            Message::OutOfMemory => texts.out_of_memory,
            Message::WriteFailed => texts.write_failed,
            Message::Fault(text) => text,
        }
    }
}

/// The statuses of a run that isn't done.
#[derive(Clone, Copy)]
pub enum Status {
    /// The input has a fault.
    Malformed,
    /// The words aren't taken.
    Usage,
    /// A file couldn't be opened or read.
    Unreadable,
    /// A write failed.
    Unwritten,
    /// Memory was wanting.
    NoMemory,
    /// The input is past a limit.
    PastLimit,
}

impl Status {
    /// The number with which the program ends.
    pub fn code(self) -> u8
        ensures { result ≡ status_code self }
    {
        match self {
            Status::Malformed => 1,
            Status::Usage => 2,
            Status::Unreadable => 3,
            Status::Unwritten => 4,
            Status::NoMemory => 5,
            Status::PastLimit => 6,
        }
    }

    /// The status of a fault of the input.
    fn of_fault(status: FaultStatus) -> Status
        ensures { status_code result ≡ code_of status }
    {
        match status {
            FaultStatus::Malformed => Status::Malformed,
            FaultStatus::PastLimit => Status::PastLimit,
        }
    }
}

/// Why a run ends before its output is whole.
#[derive(Drop)]
pub struct Halt {
    pub message: Message,
    pub status: Status,
}

impl Halt {
    /// The words aren't taken. It takes no memory.
    pub fn usage() -> Halt
        ensures { result ≡ record { message = Message.Usage; status = Status.Usage } }
    {
        Halt {
            message: Message::Usage,
            status: Status::Usage,
        }
    }

    /// Memory was wanting. It takes none.
    pub fn no_memory() -> Halt
        ensures { result ≡ record { message = Message.OutOfMemory; status = Status.NoMemory } }
    {
        Halt {
            message: Message::OutOfMemory,
            status: Status::NoMemory,
        }
    }

    /// A write to standard output failed. It takes no memory.
    pub fn write_failed() -> Halt
        ensures { result ≡ record { message = Message.WriteFailed; status = Status.Unwritten } }
    {
        Halt {
            message: Message::WriteFailed,
            status: Status::Unwritten,
        }
    }

    /// A file that is absent, or of which a call failed; or the halt for want of memory, where that is wanting for the
    /// message.
    pub fn unreadable(alloc: Global, texts: &ProgramTexts, file: &str, text: &str) -> Halt
        ensures { HaltsUnreadable texts.now file.now text.now result }
    {
        match text_message(alloc, texts, file, text) {
            Ok(message) => Halt {
                message: Message::Fault(message),
                status: Status::Unreadable,
            },
            Err(NoMemory) => Halt::no_memory(),
        }
    }

    /// A fault of a file, at no line; or the halt for want of memory.
    pub fn at_file<F: Fault>(alloc: Global, texts: &ProgramTexts, file: &str, fault: &F) -> Halt
        ensures { HaltsAtFile texts.now file.now (F.told fault.now) result }
    {
        match file_message(alloc, texts, file, fault) {
            Ok(message) => Halt {
                message: Message::Fault(message),
                status: Status::of_fault(fault.status()),
            },
            Err(NoMemory) => Halt::no_memory(),
        }
    }

    /// A fault at a line of a file, lines being numbered from 1; or the halt for want of memory.
    pub fn at_line<F: Fault>(
        alloc: Global,
        texts: &ProgramTexts,
        file: &str,
        number: u64,
        fault: &F,
    ) -> Halt
        ensures { HaltsAtLine texts.now file.now number (F.told fault.now) result }
    {
        match line_message(alloc, texts, file, number, fault) {
            Ok(message) => Halt {
                message: Message::Fault(message),
                status: Status::of_fault(fault.status()),
            },
            Err(NoMemory) => Halt::no_memory(),
        }
    }
}

impl From<NoMemory> for Halt {
    ghost use Rattle.command_frame.specs.declared.halt.Message.TheVariants.{OutOfMemory};
    ghost use Rattle.command_frame.specs.declared.halt.Status.TheVariants.{NoMemory as Wanting};

    ghost from_gives = { λ _ halt. halt ≡ record { message = OutOfMemory; status = Wanting } };

    fn from(_: NoMemory) -> Halt {
        Halt::no_memory()
    }
}

/// The front of a message that names a file.
fn begin(alloc: Global, texts: &ProgramTexts, file: &str) -> Result<Vec<u8>, NoMemory>
    ensures { IfOk result
        (λ message. message.items ≡ texts.now.name.now ++ (codes ": " ++ file.now)) }
{
    let mut message = Vec::new(alloc);
    put_bytes(&mut message, texts.name.as_bytes())?;
    put_bytes(&mut message, b": ")?;
    put_bytes(&mut message, file.as_bytes())?;
    Ok(message)
}

/// The message that says this of a file.
fn text_message(
    alloc: Global,
    texts: &ProgramTexts,
    file: &str,
    text: &str,
) -> Result<Vec<u8>, NoMemory>
    ensures { IfOk result (λ message. SaysOfFile texts.now file.now text.now message) }
{
    let mut message = begin(alloc, texts, file)?;
    put_bytes(&mut message, b": ")?;
    put_bytes(&mut message, text.as_bytes())?;
    put_bytes(&mut message, b"\n")?;
    Ok(message)
}

fn file_message<F: Fault>(
    alloc: Global,
    texts: &ProgramTexts,
    file: &str,
    fault: &F,
) -> Result<Vec<u8>, NoMemory>
    ensures { IfOk result
        (λ message. SaysOfFile texts.now file.now (F.told fault.now).text message) }
{
    let mut message = begin(alloc, texts, file)?;
    put_fault(&mut message, fault)?;
    Ok(message)
}

/// Appends a fault behind the place that has it.
fn put_fault<F: Fault>(message: &mut Vec<u8>, fault: &F) -> Result<(), NoMemory>
    ensures { OnOk result (message.new.items
        ≡ message.old.items ++ (codes ": " ++ ((F.told fault.now).text ++ codes "\n"))) }
{
    put_bytes(message, b": ")?;
    fault.put_text(message)?;
    put_bytes(message, b"\n")
}

fn line_message<F: Fault>(
    alloc: Global,
    texts: &ProgramTexts,
    file: &str,
    number: u64,
    fault: &F,
) -> Result<Vec<u8>, NoMemory>
    ensures { IfOk result
        (λ message. SaysOfLine texts.now file.now number (F.told fault.now) message) }
{
    let mut message = begin(alloc, texts, file)?;
    put_bytes(&mut message, b":")?;
    put_dec(&mut message, number)?;
    put_fault(&mut message, fault)?;
    Ok(message)
}
