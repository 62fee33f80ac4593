//! Files read whole, and the system's files. What calls in a row answer is one text.
ghost use Rattle.std.specs.Prelude.{◌≡◌, ◌+◌, ◌-◌, ◌^◌, ◌<◌, ℕ, List, None, IsTrue};
ghost use Rattle.hp_outside.specs.Folder.{file_of};

use crate::tests::stores::opens;
use hp_num::{NoMemory, put_bytes};
use hp_outside::{FsStore, Limits, MemStore, Store, read_whole};
use std::alloc::Global;
use std::fs;
use std::process::Abort;

/// Appends the rest of the current file, or why it isn't read.
fn put_whole<S: Store>(
    out: &mut Vec<u8>,
    alloc: Global,
    limits: &Limits,
    store: &mut S,
) -> Result<(), NoMemory>
    requires { IsTrue (S.current store.old) }
    ensures { S.opens store.new ≡ S.opens store.old }
{
    match read_whole(alloc, limits, store) {
        Ok(whole) => put_bytes(out, whole.bytes()),
        Err(fault) => put_bytes(out, fault.text().as_bytes()),
    }
}

/// Opens a name, and appends what the file is, or why it isn't read.
pub(crate) fn put_named<S: Store>(
    out: &mut Vec<u8>,
    alloc: Global,
    limits: &Limits,
    store: &mut S,
    name: &str,
) -> Result<(), NoMemory>
    requires { S.opens store.old < 2 ^ 64 - 1 }
    ensures { S.opens store.new ≡ S.opens store.old + 1 }
{
    match store.open(name) {
        Ok(()) => put_whole(out, alloc, limits, store),
        Err(fault) => put_bytes(out, fault.text().as_bytes()),
    }
}

/// How many bytes a read gives, the limit of a file, the call that fails, and what a file of seven bytes gives.
static SEVEN: [(u8, u16, u64, &str); 5] = [
    (1, 7, 0, "abcdefg"),
    (3, 7, 0, "abcdefg"),
    (9, 8, 0, "abcdefg"),
    (3, 6, 0, "input too long"),
    (3, 9, 3, "cannot read"),
];

/// Appends what a file of seven bytes gives within this limit, where a call fails.
fn put_seven(
    out: &mut Vec<u8>,
    alloc: Global,
    store: &mut MemStore,
    input: u16,
    failing_call: u64,
) -> Result<(), NoMemory>
    requires opens { store.old.store.opens ≡ 0 }
    requires none { (name : List ℕ) → file_of store.old.store.folder name ≡ None }
{
    let limits = Limits {
        input: u64::from(input),
        line: 9,
        order: 1,
    };
    store.add("a", b"abcdefg")?;
    store.fail_at(failing_call)?;
    put_named(out, alloc, &limits, store, "a")
}

/// What a file of seven bytes gives in reads of so many bytes is what is wanted.
fn gives_seven(
    rt: &impl Abort,
    alloc: Global,
    piece: u8,
    input: u16,
    failing_call: u64,
    want: &str,
) {
    let mut out = Vec::new(alloc);
    let mut store = MemStore::new(alloc, usize::from(piece).max(1));
    put_seven(&mut out, alloc, &mut store, input, failing_call).expect(rt, "memory");
    drop(store);
    assert_eq!(rt; out.as_slice(), want.as_bytes());
}

#[test]
fn reads_whole_files(rt: HostRuntime) {
    for (piece, input, failing_call, want) in &SEVEN {
        gives_seven(&rt, rt.alloc(), *piece, *input, *failing_call, want);
    }
}

/// Appends what a name opens, a name that isn't there, and a folder. The system opens that too, and fails where it is read: that is
/// no end of a file. Its standard input opens as well.
fn put_system<S: Store>(
    rt: &impl Abort,
    out: &mut Vec<u8>,
    alloc: Global,
    store: &mut S,
    name: &str,
) -> Result<(), NoMemory>
    requires { S.opens store.old < 9 }
{
    let limits = Limits::standard();
    opens(rt, store, "-");
    put_named(out, alloc, &limits, store, name)?;
    put_named(out, alloc, &limits, store, "hp_outside_no_test")?;
    put_named(out, alloc, &limits, store, ".")
}

#[test]
fn fs_store_reads_a_file(rt: HostRuntime) {
    let id = std::process::id(rt.process());
    let path = format!(in rt.alloc(); "hp_outside_test_{id}").expect(&rt, "a name");
    fs::write(&rt, path.as_str(), "a file, ").expect(&rt, "a file");
    let mut store = FsStore::new(&rt);
    let mut out = Vec::new(rt.alloc());
    put_system(&rt, &mut out, rt.alloc(), &mut store, path.as_str()).expect(&rt, "memory");
    drop(store);
    fs::remove_file(&rt, path.as_str()).expect(&rt, "a file less");
    let want = b"a file, no such filecannot read";
    assert_eq!(rt; out.as_slice(), want.as_slice());
}
