//! The list of the commands, and the usage text that names them.
ghost use Rattle.std.specs.Prelude.{◌≡◌, ◌^◌, ◌<◌};
ghost use Rattle.command_frame.specs.Texts.{texts_of};
ghost use Rattle.commands.specs.HasEnded.{EndsHelp, EndsWords, GivesUsage};
ghost use Rattle.commands.specs.Texts.{heapsuite_texts as texts_of_heapsuite};

use crate::command::{Ran, read, refuse, run_read};
use crate::convert_command::ConvertRequest;
use crate::dhat_command::DhatRequest;
use crate::flame_command::FlameRequest;
use crate::gen_command::GenRequest;
use crate::interpret_command::InterpretRequest;
use crate::massif_command::MassifRequest;
use crate::page_command::PageRequest;
use crate::print_command::PrintRequest;
use crate::summary_command::SummaryRequest;
use crate::view_command::DhatViewRequest;
use command_frame::{ProgramTexts, RunContext, deliver};
use command_words::WordsFault;
use hp_num::put_bytes;
use hp_outside::{Sink, Store};

/// What the program calls itself, and its messages that name no file.
#[tactic(auto, unfolding(crate::specs::Commands::usage))]
pub fn heapsuite_texts() -> ProgramTexts
    ensures { texts_of result ≡ texts_of_heapsuite }
{
    ProgramTexts {
        name: "heapsuite",
        usage: b"usage: heapsuite COMMAND [OPTION]... [FILE]\ncommands: summary print flame interpret massif ms_print dhat gen dhat_view convert\n",
        out_of_memory: b"heapsuite: out of memory\n",
        write_failed: b"heapsuite: write failed\n",
    }
}

/// Runs what the words ask for, and delivers it. The answer is the status. No words and an unknown first one take no memory.
#[tactic(auto, unfolding(crate::specs::Commands::command_named))]
pub fn run_words<S: Store, O: Sink, E: Sink>(
    context: &RunContext,
    words: &[String],
    store: &mut S,
    out: &mut O,
    err: &mut E,
) -> u8
    requires opens { S.opens store.old < 2 ^ 63 }
    requires texts { texts_of context.now.texts ≡ texts_of_heapsuite }
    ensures { EndsWords S.Store O.Sink E.Sink context.now words.now
        store.old out.old err.old store.new out.new err.new result }
{
    let [name, words @ ..] = words else {
        return refuse(context, WordsFault::NotTaken, out, err);
    };
    let alloc = context.alloc;
    match name.as_str() {
        "--help" => help(context, words, out, err),
        "summary" => run_read(
            context,
            read::<SummaryRequest>(alloc, words),
            store,
            out,
            err,
        ),
        "print" => run_read(context, read::<PrintRequest>(alloc, words), store, out, err),
        "flame" => run_read(context, read::<FlameRequest>(alloc, words), store, out, err),
        "interpret" => run_read(
            context,
            read::<InterpretRequest>(alloc, words),
            store,
            out,
            err,
        ),
        "massif" => run_read(
            context,
            read::<MassifRequest>(alloc, words),
            store,
            out,
            err,
        ),
        "ms_print" => run_read(context, read::<PageRequest>(alloc, words), store, out, err),
        "dhat" => run_read(context, read::<DhatRequest>(alloc, words), store, out, err),
        "gen" => run_read(context, read::<GenRequest>(alloc, words), store, out, err),
        "dhat_view" => run_read(
            context,
            read::<DhatViewRequest>(alloc, words),
            store,
            out,
            err,
        ),
        "convert" => run_read(
            context,
            read::<ConvertRequest>(alloc, words),
            store,
            out,
            err,
        ),
        _ => refuse(context, WordsFault::NotTaken, out, err),
    }
}

/// `--help` alone: how the program is called, on standard output.
fn help<O: Sink, E: Sink>(context: &RunContext, words: &[String], out: &mut O, err: &mut E) -> u8
    requires texts { texts_of context.now.texts ≡ texts_of_heapsuite }
    ensures { EndsHelp O.Sink E.Sink context.now words.now out.old err.old out.new err.new result }
{
    match words {
        [] => {
            let ran = usage(context);
            deliver(ran, &context.texts, out, err)
        }
        [_, ..] => refuse(context, WordsFault::NotTaken, out, err),
    }
}

/// How the program is called.
fn usage(context: &RunContext) -> Ran
    ensures { GivesUsage context.now result }
{
    let mut usage = Vec::new(context.alloc);
    put_bytes(&mut usage, context.texts.usage)?;
    Ok(usage)
}
