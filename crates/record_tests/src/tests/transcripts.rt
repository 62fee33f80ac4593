//! Transcripts: runs, and what came of them, as one text.

use crate::tests::failing_calls::put_all_failures;
use crate::tests::gates::Watch;
use crate::tests::runs::{Run, append_run, sound};
use hp_num::{NoMemory, put_bytes};
use std::alloc::Global;
use std::process::Abort;
use std::sync::Wait;
use std::thread::Threads;

/// Runs, and how many events all scripts of one may have. A line behind `> ` is one more of the file `s`, up to the next run, and
/// one behind `>. ` has no line feed; the words behind `$ ` are run; those behind `! ` are run once for each call that can fail, which
/// fails then; all other lines are what came of it, the usage text as `(usage)`.
pub struct Transcript {
    pub most_events: u16,
    pub text: &'static str,
}

/// Appends a line.
fn put_line(line: &str, all: &mut Vec<u8>) -> Result<(), NoMemory> {
    put_bytes(all, line.as_bytes())?;
    put_bytes(all, b"\n")
}

/// Makes a run of which no call fails, and appends what came of it.
fn append_sound_run<R: Threads + Wait + Sync + Abort>(
    rt: &R,
    alloc: Global,
    most_events: u16,
    script: &[u8],
    words: &str,
    gate: &Watch,
    all: &mut Vec<u8>,
) {
    let run = Run {
        setting: sound(most_events),
        script,
        words,
    };
    append_run(rt, alloc, &run, gate, all);
}

/// Plays a line of a transcript, where the file `s` has these bytes so far.
fn play_line<R: Threads + Wait + Sync + Abort>(
    rt: &R,
    alloc: Global,
    most_events: u16,
    line: &str,
    gate: &Watch,
    script: &mut Vec<u8>,
    all: &mut Vec<u8>,
) -> Result<(), NoMemory> {
    if let Some(more) = line.strip_prefix("> ") {
        put_line(line, all)?;
        return put_line(more, script);
    }
    if let Some(last) = line.strip_prefix(">. ") {
        put_line(line, all)?;
        return put_bytes(script, last.as_bytes());
    }
    if let Some(words) = line.strip_prefix("! ") {
        put_line(line, all)?;
        put_all_failures(rt, alloc, script, words, all);
        script.clear();
        return Ok(());
    }
    let Some(words) = line.strip_prefix("$ ") else {
        return Ok(());
    };
    put_line(line, all)?;
    append_sound_run(rt, alloc, most_events, script, words, gate, all);
    script.clear();
    Ok(())
}

/// Plays the lines of a transcript, and appends what then stands there.
fn play<R: Threads + Wait + Sync + Abort>(
    rt: &R,
    alloc: Global,
    transcript: &Transcript,
    gate: &Watch,
    script: &mut Vec<u8>,
    all: &mut Vec<u8>,
) -> Result<(), NoMemory> {
    for line in transcript.text.split('\n') {
        play_line(rt, alloc, transcript.most_events, line, gate, script, all)?;
    }
    Ok(())
}

/// Plays a transcript and asserts that it is what was written.
fn expect<R: Threads + Wait + Sync + Abort>(
    rt: &R,
    alloc: Global,
    transcript: &Transcript,
    gate: &Watch,
) {
    let mut all = Vec::new(alloc);
    let mut script = Vec::new(alloc);
    play(rt, alloc, transcript, gate, &mut script, &mut all).expect(rt, "memory");
    assert_eq!(rt; all.as_slice(), transcript.text.as_bytes());
}

/// Plays transcripts. The workers of all runs of which no call fails pass this gate.
pub fn expect_all<R: Threads + Wait + Sync + Abort>(
    rt: &R,
    alloc: Global,
    transcripts: &[Transcript],
    gate: &Watch,
) {
    for transcript in transcripts {
        expect(rt, alloc, transcript, gate);
    }
}
