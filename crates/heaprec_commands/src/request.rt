//! What the words of the recorder ask for.
ghost use Rattle.std.specs.Prelude.{◌≡◌, [], Err, IfOk, IfSome, IfNone, None, Some, map, string_bytes};
ghost use Rattle.std.specs.Option.{option_copied};
ghost use Rattle.heaprec_commands.specs.RecordWords.{trace_of};
ghost use Rattle.heaprec_commands.specs.Requests.{NamesFew, NamesSome, asked_by, asked_in, taken_asks, task_by, task_named};

use crate::inputs::inputs_in;
use command_words::{TakenWords, WordTable, WordsFault, take_words};
use std::alloc::Global;

/// The option that names a modules file.
const MODULES: &str = "modules";

/// The option that names a trace to check.
const CHECK: &str = "check";

/// The flag for a summary.
const SUMMARY: &str = "summary";

/// Two options, one flag, and files.
const WORDS: WordTable<'static> = WordTable {
    options: &[MODULES, CHECK],
    flags: &[SUMMARY],
    files: true,
};

/// The greatest number of scripts.
const MOST_SCRIPTS: usize = 64;

/// What is done with the scripts.
#[derive(Clone, Copy)]
pub enum RecordTask<'a> {
    /// They are recorded, and a summary is written behind the trace or isn't.
    Record { summary: bool },
    /// The trace of this name is checked against them.
    Check { trace: &'a str },
}

impl<'a> RecordTask<'a> {
    /// The name of the trace that is read, if there is one.
    pub fn trace(&self) -> Option<&'a str>
        ensures { option_copied result ≡ trace_of (task_by self.now) }
    {
        match self {
            RecordTask::Record { .. } => None,
            RecordTask::Check { trace } => Some(*trace),
        }
    }
}

/// What the recorder is to do.
#[derive(Drop)]
pub struct RecordRequest<'a> {
    /// The name of the modules file, if there is one.
    pub modules: Option<&'a str>,
    /// The names of the scripts, from thread 0 on.
    pub scripts: Vec<&'a str>,
    /// What is done with them.
    pub task: RecordTask<'a>,
}

impl<'a> RecordRequest<'a> {
    /// The request that the words make. `NotTaken` exactly where they aren't taken, unless memory is wanting; no words at all
    /// take none.
    pub fn read(alloc: Global, words: &'a [String]) -> Result<RecordRequest<'a>, WordsFault>
        ensures taken { IfOk result
            (λ request. asked_in words.entry.now ≡ Some (asked_by request)) }
        ensures refused { result ≡ Err WordsFault.NotTaken → asked_in words.entry.now ≡ None }
        ensures none { map string_bytes words.entry.now ≡ [] → result ≡ Err WordsFault.NotTaken }
        ensures some { IfOk result NamesSome }
        ensures few { IfOk result NamesFew }
    {
        if words.is_empty() {
            return Err(WordsFault::NotTaken);
        }
        let words = take_words(alloc, &WORDS, words)?;
        request_in(alloc, &words)
    }
}

/// What a trace to check, if there is one, and the flag for a summary ask for; none where both are there.
fn task_in<'a>(trace: Option<&'a str>, summary: bool) -> Option<RecordTask<'a>>
    ensures some { IfSome result
        (λ task. task_named trace.entry summary ≡ Some (task_by task)) }
    ensures none { IfNone result (task_named trace.entry summary ≡ None) }
{
    match trace {
        None => Some(RecordTask::Record { summary }),
        Some(_) if summary => None,
        Some(trace) => Some(RecordTask::Check { trace }),
    }
}

/// What taken words ask for.
fn request_in<'a>(alloc: Global, words: &TakenWords<'a>) -> Result<RecordRequest<'a>, WordsFault>
    ensures taken { IfOk result
        (λ request. taken_asks words.now ≡ Some (asked_by request)) }
    ensures refused { result ≡ Err WordsFault.NotTaken → taken_asks words.now ≡ None }
    ensures some { IfOk result NamesSome }
    ensures few { IfOk result NamesFew }
{
    let Some(names) = words.files() else {
        return Err(WordsFault::NotTaken);
    };
    let trace = words.value(CHECK);
    let Some(task) = task_in(trace, words.has(SUMMARY)) else {
        return Err(WordsFault::NotTaken);
    };
    if names.is_empty() || names.len() > MOST_SCRIPTS {
        return Err(WordsFault::NotTaken);
    }
    let modules = words.value(MODULES);
    if inputs_in(modules, names, task.trace()) > 1 {
        return Err(WordsFault::NotTaken);
    }
    let mut scripts = Vec::new(alloc);
    scripts.extend_from_slice(names)?;
    Ok(RecordRequest {
        modules,
        scripts,
        task,
    })
}
