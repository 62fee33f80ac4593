//! Transcripts: texts of runs and of what they write, as they would stand on a terminal. Their runs are played, and what is
//! written is compared with them.

ghost use Rattle.std.specs.Prelude.{◌≡◌, ℕ, List, None};
ghost use Rattle.hp_outside.specs.Folder.{file_of};

use commands::heapsuite_run;
use hp_num::{NoMemory, put_bytes, put_dec};
use hp_outside::{Limits, MemSink, MemStore};
use std::alloc::Global;
use std::process::Abort;

/// A trace with two sizes, of which the peak isn't the end.
pub const TWO_SIZES: &str = "v 10500 2\na 64 0\na 20 0\n+ 0\n+ 1\n- 0\n+ 0\n";

/// A trace with strings, instructions, nodes, a command, a clock value and resident memory.
pub const WORKED: &str =
    "v 10500 2\nX demo\nI 1000 3e80\ns app\ns main\ns f\ns a.c\ni 400 1 2 4 14\ni 500 1 3 4 a\nt 1 0\nt 2 1\na 64 2\na 64 1\n+ 0\nc 5\nR 100\n- 0\n+ 1\n";

/// Its Massif file. Transcripts show it as `(profile)`.
pub const MASSIF: &str = "desc: heapsuite massif\ncmd: demo\ntime_unit: B
#-----------\nsnapshot=0\n#-----------
time=0\nmem_heap_B=0\nmem_heap_extra_B=0\nmem_stacks_B=0\nheap_tree=empty
#-----------\nsnapshot=1\n#-----------
time=120\nmem_heap_B=100\nmem_heap_extra_B=20\nmem_stacks_B=0\nheap_tree=empty
#-----------\nsnapshot=2\n#-----------
time=120\nmem_heap_B=100\nmem_heap_extra_B=20\nmem_stacks_B=0\nheap_tree=peak
n1: 100 (heap allocation functions) malloc/new/new[], --alloc-fns, etc.
 n1: 100 0x500: f (a.c:10)
  n0: 100 0x400: main (a.c:20)
#-----------\nsnapshot=3\n#-----------
time=240\nmem_heap_B=0\nmem_heap_extra_B=0\nmem_stacks_B=0\nheap_tree=empty
#-----------\nsnapshot=4\n#-----------
time=360\nmem_heap_B=100\nmem_heap_extra_B=20\nmem_stacks_B=0\nheap_tree=empty
";

/// A second Massif file up to its tree.
pub const SECOND_FILE: &str =
    "desc: (none)\ncmd: ./a.out\ntime_unit: i\n#-----------\nsnapshot=0\n#-----------\ntime=0\nmem_heap_B=0\nmem_heap_extra_B=0\nmem_stacks_B=0\nheap_tree=empty\n#-----------\nsnapshot=1\n#-----------\ntime=157300\nmem_heap_B=9000\nmem_heap_extra_B=72\nmem_stacks_B=0\nheap_tree=detailed\n";

/// The worked trace's DHAT profile.
pub const DEMO: &str =
    "{\"Mtu\":\"Mevents\",\"bkacc\":false,\"bklt\":true,\"cmd\":\"demo\",\"dhatFileVersion\":2,\"ftbl\":[\"[root]\",\"0x400: main (a.c:20)\",\"0x500: f (a.c:10)\"],\"mode\":\"heap\",\"pid\":0,\"pps\":[{\"eb\":100,\"ebk\":1,\"fs\":[1],\"gb\":0,\"gbk\":0,\"mb\":100,\"mbk\":1,\"tb\":100,\"tbk\":1,\"tl\":0},{\"eb\":0,\"ebk\":0,\"fs\":[2,1],\"gb\":100,\"gbk\":1,\"mb\":100,\"mbk\":1,\"tb\":100,\"tbk\":1,\"tl\":1}],\"te\":3,\"tg\":1,\"tu\":\"events\",\"tuth\":500,\"verb\":\"Allocated\"}\n";

/// The Massif file that this profile is converted to. Transcripts show it as `(converted)`.
const CONVERTED: &str =
    "desc: heapsuite convert\ncmd: demo\ntime_unit: e\n#-----------\nsnapshot=0\n#-----------\ntime=1\nmem_heap_B=100\nmem_heap_extra_B=0\nmem_stacks_B=0\nheap_tree=peak\nn1: 100 (heap allocation functions) malloc/new/new[], --alloc-fns, etc.\n n1: 100 0x500: f (a.c:10)\n  n0: 100 0x400: main (a.c:20)\n#-----------\nsnapshot=1\n#-----------\ntime=3\nmem_heap_B=100\nmem_heap_extra_B=0\nmem_stacks_B=0\nheap_tree=detailed\nn1: 100 (heap allocation functions) malloc/new/new[], --alloc-fns, etc.\n n0: 100 0x400: main (a.c:20)\n";

/// A raw trace, whose symbols the folder has.
pub const RAW: &str =
    "v 10500 2\nx app\nm app 1000 0 1000\nt 1400 0\nt 1500 1\n+ 40 2 9000\n+ 40 2 9000\n- 9000\n- 9000\n";

/// How the program is called. Transcripts show it as `(usage)`.
const USAGE: &str =
    "usage: heapsuite COMMAND [OPTION]... [FILE]\ncommands: summary print flame interpret massif ms_print dhat gen dhat_view convert\n";

/// How runs are made, and the file `s` that they find. A call of number 0 never fails.
#[derive(Clone, Copy)]
pub struct Setting {
    pub symbols: &'static str,
    pub piece: usize,
    pub input: u32,
    pub line: u16,
    pub failing_store_call: u64,
    pub out_room: usize,
    pub failing_out_call: u64,
    pub err_room: usize,
    pub failing_err_call: u64,
}

/// All calls are sound.
pub const SOUND: Setting = Setting {
    symbols: "app\t400\t100\tmain\ta.c\t20\napp\t500\t10\tf\n",
    piece: 16,
    input: 100_000,
    line: 1000,
    failing_store_call: 0,
    out_room: 4000,
    failing_out_call: 0,
    err_room: 1000,
    failing_err_call: 0,
};

/// A transcript: what it shows, what the file `t` begins with, and a text. In the text a line behind `> ` is one more of `t`, up to
/// the next run; the words behind `$ ` are run; all other lines are what a run wrote.
pub type Transcript = (&'static str, &'static str, &'static str);

/// Adds the words that stand between blanks.
fn add_words(alloc: Global, text: &str, list: &mut Vec<String>) -> Result<(), NoMemory> {
    if text.is_empty() {
        return Ok(());
    }
    for word in text.split(' ') {
        list.push(String::from_str(alloc, word)?)?;
    }
    Ok(())
}

/// Adds the files that runs find: `t`, a worked trace `e` and symbols `s`. One call of the store is to fail.
fn add_files(store: &mut MemStore, setting: &Setting, file: &[u8]) -> Result<(), NoMemory>
    requires { (name : List ℕ) → file_of store.old.store.folder name ≡ None }
    ensures { store.new.store.opens ≡ store.old.store.opens }
{
    store.add("t", file)?;
    store.add("e", WORKED.as_bytes())?;
    store.add("s", setting.symbols.as_bytes())?;
    store.fail_at(setting.failing_store_call)
}

/// Both outputs of a run, of whose calls one is to fail.
fn fail_outputs(setting: &Setting, out: &mut MemSink, err: &mut MemSink) -> Result<(), NoMemory> {
    out.fail_at(setting.failing_out_call)?;
    err.fail_at(setting.failing_err_call)
}

/// What a run came to: its status, and what both outputs got.
#[derive(Drop)]
pub struct Outcome {
    pub status: u8,
    pub out: Vec<u8>,
    pub err: Vec<u8>,
}

impl Outcome {
    /// Of no run.
    pub fn new(alloc: Global) -> Outcome {
        Outcome {
            status: 0,
            out: Vec::new(alloc),
            err: Vec::new(alloc),
        }
    }
}

/// Keeps what a run with this status came to.
fn keep(status: u8, out: &[u8], err: &[u8], outcome: &mut Outcome) -> Result<(), NoMemory> {
    outcome.status = status;
    outcome.out.clear();
    put_bytes(&mut outcome.out, out)?;
    outcome.err.clear();
    put_bytes(&mut outcome.err, err)
}

/// Runs the words over the folder, and gives the status.
fn status_of(
    alloc: Global,
    setting: &Setting,
    words: &[String],
    store: &mut MemStore,
    out: &mut MemSink,
    err: &mut MemSink,
) -> u8
    requires unopened { store.old.store.opens ≡ 0 }
{
    let limits = Limits {
        input: u64::from(setting.input),
        line: u32::from(setting.line).max(1),
        order: 1,
    };
    heapsuite_run(alloc, words, &limits, store, out, err)
}

/// Runs the words over the folder.
fn run_over(
    rt: &impl Abort,
    alloc: Global,
    setting: &Setting,
    words: &[String],
    store: &mut MemStore,
    outcome: &mut Outcome,
)
    requires unopened { store.old.store.opens ≡ 0 }
{
    let mut out = MemSink::new(alloc, setting.out_room).expect(rt, "an output");
    let mut err = MemSink::new(alloc, setting.err_room).expect(rt, "an output");
    fail_outputs(setting, &mut out, &mut err).expect(rt, "outputs");
    let status = status_of(alloc, setting, words, store, &mut out, &mut err);
    keep(status, out.bytes(), err.bytes(), outcome).expect(rt, "an outcome");
}

/// Runs the words, which stand between blanks, where `t` has these bytes.
pub fn run_words(
    rt: &impl Abort,
    alloc: Global,
    setting: &Setting,
    file: &[u8],
    words: &str,
    outcome: &mut Outcome,
) {
    let mut list = Vec::new(alloc);
    add_words(alloc, words, &mut list).expect(rt, "words");
    let mut store = MemStore::new(alloc, setting.piece.max(1));
    add_files(&mut store, setting, file).expect(rt, "a folder");
    run_over(rt, alloc, setting, &list, &mut store, outcome);
}

/// How lines begin that transcripts show behind the line before: figures of a summary, and the header and values of a Massif file.
static VALUES: [&str; 10] = [
    "calls: ",
    "temporary: ",
    "allocated: ",
    "peak: ",
    "leaked: ",
    "cmd: ",
    "time_unit: ",
    "time=",
    "mem_",
    "heap_tree=",
];

/// Whether a line is shown behind the line before.
fn is_value(line: &[u8]) -> bool {
    for front in &VALUES {
        if line.starts_with(front.as_bytes()) {
            return true;
        }
    }
    false
}

/// Appends lines: all figures of a summary in one, and so the header of a Massif file and each snapshot, without the lines of marks
/// between these.
fn put_lines(text: &[u8], all: &mut Vec<u8>) -> Result<(), NoMemory> {
    let is_massif = text.starts_with(b"desc: ");
    let mut is_first = true;
    for line in text.split(|byte| *byte == b'\n') {
        if is_massif && line == b"#-----------".as_slice() {
            continue;
        }
        if !is_first {
            put_bytes(all, if is_value(line) { b" " } else { b"\n" })?;
        }
        put_bytes(all, line)?;
        is_first = false;
    }
    Ok(())
}

/// Texts that transcripts show by a word.
static SHOWN: [(&str, &str); 3] = [
    (USAGE, "(usage)\n"),
    (MASSIF, "(profile)\n"),
    (CONVERTED, "(converted)\n"),
];

/// Appends what an output got.
fn put_got(got: &[u8], all: &mut Vec<u8>) -> Result<(), NoMemory> {
    for (text, word) in &SHOWN {
        if got == text.as_bytes() {
            return put_bytes(all, word.as_bytes());
        }
    }
    put_lines(got, all)
}

/// Appends what both outputs of a run got, and its status in brackets.
pub fn put_outcome(outcome: &Outcome, all: &mut Vec<u8>) -> Result<(), NoMemory> {
    put_got(&outcome.out, all)?;
    put_got(&outcome.err, all)?;
    put_bytes(all, b"[")?;
    put_dec(all, u64::from(outcome.status))?;
    put_bytes(all, b"]\n")
}

/// What is at hand while a transcript is played: the file `t` so far, what the last run came to, and what stands there so far.
#[derive(Drop)]
struct Stage {
    file: Vec<u8>,
    outcome: Outcome,
    all: Vec<u8>,
}

fn put_line(line: &str, all: &mut Vec<u8>) -> Result<(), NoMemory> {
    put_bytes(all, line.as_bytes())?;
    put_bytes(all, b"\n")
}

/// Plays a line of a transcript, where `t` begins so.
fn play_line(
    rt: &impl Abort,
    alloc: Global,
    setting: &Setting,
    front: &str,
    line: &str,
    stage: &mut Stage,
) -> Result<(), NoMemory> {
    let Stage { file, outcome, all } = stage;
    if let Some(more) = line.strip_prefix("> ") {
        put_line(line, all)?;
        return put_line(more, file);
    }
    let Some(words) = line.strip_prefix("$ ") else {
        return Ok(());
    };
    put_line(line, all)?;
    run_words(rt, alloc, setting, file, words, outcome);
    put_outcome(outcome, all)?;
    file.clear();
    put_bytes(file, front.as_bytes())
}

/// Plays the lines of a transcript. What stands there is the transcript, run by run.
fn play_lines(
    rt: &impl Abort,
    alloc: Global,
    setting: &Setting,
    transcript: &Transcript,
    stage: &mut Stage,
) {
    let (name, front, text) = transcript;
    put_bytes(&mut stage.file, front.as_bytes()).expect(rt, "a file");
    for line in text.split('\n') {
        play_line(rt, alloc, setting, front, line, stage).expect(rt, "memory");
        let length = stage.all.len();
        let is_begun = text.as_bytes().starts_with(&stage.all);
        assert!(rt; is_begun, "{name}, up to byte {length}: {line}");
    }
    assert_eq!(rt; stage.all.len(), text.len());
}

/// Plays a transcript whose runs are made so.
fn plays(rt: &impl Abort, alloc: Global, setting: &Setting, transcript: &Transcript) {
    let mut stage = Stage {
        file: Vec::new(alloc),
        outcome: Outcome::new(alloc),
        all: Vec::new(alloc),
    };
    play_lines(rt, alloc, setting, transcript, &mut stage);
}

/// Plays transcripts whose runs are made as stands beside them.
pub fn play_settings(rt: &impl Abort, alloc: Global, transcripts: &[(Setting, Transcript)]) {
    for (setting, transcript) in transcripts {
        plays(rt, alloc, setting, transcript);
    }
}

/// Plays transcripts of which all calls are sound.
pub fn play_all(rt: &impl Abort, alloc: Global, transcripts: &[Transcript]) {
    for transcript in transcripts {
        plays(rt, alloc, &SOUND, transcript);
    }
}

/// A run comes to what is wanted.
pub fn comes_to(
    rt: &impl Abort,
    alloc: Global,
    setting: &Setting,
    file: &[u8],
    words: &str,
    want: &str,
) {
    let mut outcome = Outcome::new(alloc);
    let mut all = Vec::new(alloc);
    run_words(rt, alloc, setting, file, words, &mut outcome);
    put_outcome(&outcome, &mut all).expect(rt, "memory");
    let piece = setting.piece;
    assert_eq!(rt;
        all.as_slice(),
        want.as_bytes(),
        "at {words}, read by {piece}"
    );
}
