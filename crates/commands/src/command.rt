//! What a command is: the words that it takes, what they ask for, and how that is run. Which commands there are is no part of it.
ghost use Rattle.std.specs.Prelude.{◌≡◌, ◌≢◌, ◌^◌, ◌<◌, Err, map, option_map, string_bytes};
ghost use Rattle.command_frame.specs.Halts.{halt_answer};
ghost use Rattle.command_frame.specs.Texts.{Texts};
ghost use Rattle.command_words.specs.WordsTaken.{AreRefused, GivesRows};
ghost use Rattle.commands.specs.Command.{CommandOf, Reads, RunsTask, given_by, with_options};
ghost use Rattle.commands.specs.HasEnded.{EndsRead, EndsRefused, fault_answer};

use command_frame::{Halt, ReadyText, RunContext, deliver};
use command_words::{TakenWords, WordTable, WordsFault, take_words};
use hp_outside::{Sink, Store};
use std::alloc::Global;

/// What a run gives: the rest of its output, which is a text that is held where nothing else is said, or why it halts.
pub type Ran<T = Vec<u8>> = Result<T, Halt>;

/// A command, as what is asked of it.
pub trait Command: Copy {
    /// What is left of its output once its files were read.
    type Rest: ReadyText + Drop;

    /// Which words are taken, and what is done for them and for a request.
    ghost command: { CommandOf Self };

    /// Reads its files, writes what is written while they are read, and gives the rest of the output.
    fn run<S: Store, O: Sink>(
        &self,
        context: &RunContext,
        store: &mut S,
        out: &mut O,
    ) -> Ran<Self::Rest>
        requires { S.opens store.old < 2 ^ 63 }
        ensures { RunsTask S.Store O.Sink Self.Rest.bytes context.now (command.task self.now)
            store.old store.new out.old out.new result };
}

/// What words ask of a command.
pub trait Request<'a>: Command {
    /// Takes the words behind the command.
    fn take(alloc: Global, words: &'a [String]) -> Result<TakenWords<'a>, WordsFault>
        ensures taken { GivesRows Self.command.table words.entry.now result }
        ensures refused { result ≡ Err WordsFault.NotTaken
            → AreRefused Self.command.table words.entry.now };

    /// The request that taken words make. `None` where a value is out of its range.
    fn request_in(words: &'a [String], taken: &TakenWords<'a>) -> Option<Self>
        ensures { option_map Self.command.task result
            ≡ given_by Self.command words.entry.now taken.now };
}

/// Takes options, and one file.
pub fn take_with_file<'a>(
    alloc: Global,
    options: &'a [&'a str],
    words: &'a [String],
) -> Result<TakenWords<'a>, WordsFault>
    ensures taken { GivesRows (with_options options.now) words.entry.now result }
    ensures refused { result ≡ Err WordsFault.NotTaken
        → AreRefused (with_options options.now) words.entry.now }
{
    let table = WordTable {
        options,
        flags: &[],
        files: true,
    };
    take_words(alloc, &table, words)
}

/// The request that the words behind a command make. `NotTaken` exactly where they aren't taken, unless memory is wanting.
pub fn read<'a, C: Request<'a>>(alloc: Global, words: &'a [String]) -> Result<C, WordsFault>
    ensures { Reads C.command (map string_bytes words.entry.now) result }
{
    let taken = match C::take(alloc, words) {
        Ok(taken) => taken,
        Err(fault) => return Err(fault),
    };
    match C::request_in(words, &taken) {
        Some(request) => Ok(request),
        None => Err(WordsFault::NotTaken),
    }
}

/// Runs what words ask of a command, as they were read, and delivers what that comes to. The answer is the status.
pub fn run_read<C: Command, S: Store, O: Sink, E: Sink>(
    context: &RunContext,
    request: Result<C, WordsFault>,
    store: &mut S,
    out: &mut O,
    err: &mut E,
) -> u8
    requires { S.opens store.old < 2 ^ 63 }
    ensures { EndsRead S.Store O.Sink E.Sink context.now C.command request
        store.old out.old err.old store.new out.new err.new result }
{
    match request {
        Ok(request) => {
            let ran = request.run(context, store, out);
            deliver(ran, &context.texts, out, err)
        }
        Err(fault) => refuse(context, fault, out, err),
    }
}

/// Tells why words ask for nothing: the usage text where they aren't taken, or that memory was wanting. It takes no memory.
pub fn refuse<O: Sink, E: Sink>(
    context: &RunContext,
    fault: WordsFault,
    out: &mut O,
    err: &mut E,
) -> u8
    ensures told { EndsRefused O.Sink E.Sink context.now fault out.old err.old out.new err.new
        result }
    ensures no_memory { fault ≡ WordsFault.NotTaken → result ≢ 5 }
{
    let ran: Ran = Err(halt_by(fault));
    deliver(ran, &context.texts, out, err)
}

/// Why a run ends without a request.
fn halt_by(fault: WordsFault) -> Halt
    ensures { (texts : Texts) → halt_answer texts result ≡ fault_answer texts fault }
{
    match fault {
        WordsFault::NotTaken => Halt::usage(),
        WordsFault::NoMemory => Halt::no_memory(),
    }
}
