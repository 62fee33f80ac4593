//! From the words and the files to what is to be delivered. How that is written is the business of the frame.
ghost use Rattle.std.specs.Prelude.{◌≡◌, ◌^◌, ◌<◌, [], map, string_bytes};
ghost use Rattle.command_frame.specs.RunsTo.{rest_of};
ghost use Rattle.command_frame.specs.Texts.{texts_of};
ghost use Rattle.heaprec_commands.specs.Requests.{NamesFew, NamesSome};
ghost use Rattle.heaprec_commands.specs.RunsOver.{RunsRequest, RunsWords};
ghost use Rattle.heaprec_commands.specs.Texts.{heaprec_texts};

use crate::check_trace::check_trace;
use crate::files::{ScriptFiles, read_files};
use crate::record_text::record_text;
use crate::request::{RecordRequest, RecordTask};
use command_frame::{Halt, RunContext};
use command_words::WordsFault;
use hp_outside::{Sink, Store};
use order_check::front_laws;
use record_book::quiet_modules;
use recorder::Gate;
use std::alloc::Global;
use std::sync::Wait;
use std::thread::Threads;

/// Runs what the words ask for, and answers the output that is yet to be written, or why the run ends without it. No bytes
/// are written here, though the clause allows some. Where there are no words, no memory is taken, and the halt is that of
/// the usage text.
pub fn run_words<R: Threads + Wait + Sync, S: Store, O: Sink, G: Gate + Sync>(
    rt: &R,
    context: &RunContext,
    words: &[String],
    store: &mut S,
    out: &mut O,
    gate: &G,
) -> Result<Vec<u8>, Halt>
    requires opens { S.opens store.old < 2 ^ 63 }
    requires texts { texts_of context.now.texts ≡ heaprec_texts }
    ensures run { RunsWords S.Store O.Sink context.now words.now store.old store.new out.old out.new
        result }
    ensures none { map string_bytes words.now ≡ []
        → (rest_of heaprec_texts result).status ≡ 2 }
{
    match RecordRequest::read(context.alloc, words) {
        Ok(request) => run_request(rt, context, &request, store, out, gate),
        Err(WordsFault::NotTaken) => Err(Halt::usage()),
        Err(WordsFault::NoMemory) => Err(Halt::no_memory()),
    }
}

/// Runs a request: reads its files, and records what they say or checks a trace against it.
fn run_request<R: Threads + Wait + Sync, S: Store, O: Sink, G: Gate + Sync>(
    rt: &R,
    context: &RunContext,
    request: &RecordRequest,
    store: &mut S,
    out: &mut O,
    gate: &G,
) -> Result<Vec<u8>, Halt>
    requires opens { S.opens store.old < 2 ^ 63 }
    requires texts { texts_of context.now.texts ≡ heaprec_texts }
    requires some { NamesSome request.now }
    requires few { NamesFew request.now }
    ensures { RunsRequest S.Store O.Sink context.now request.now store.old store.new out.old out.new
        result }
{
    let files = ScriptFiles {
        modules: request.modules,
        scripts: &request.scripts,
    };
    let scripts = match read_files(context, &files, store, out) {
        Ok(scripts) => scripts,
        Err(halt) => return Err(halt),
    };
    match request.task {
        RecordTask::Record { summary } => {
            Ok(record_text(rt, context.alloc, scripts, summary, gate)?)
        }
        RecordTask::Check { trace } => {
            front_laws();
            quiet_modules();
            let _modules = scripts.modules();
            check_trace(context, trace, scripts, store, out)
        }
    }
}
