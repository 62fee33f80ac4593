//! Stores: pieces, names that aren't held and calls that are to fail. What calls in a row answer is one text.
ghost use Rattle.std.specs.Prelude.{◌≡◌, ◌+◌, ◌-◌, ◌^◌, ◌<◌, ℕ, List, None, IsTrue};
ghost use Rattle.hp_outside.specs.Folder.{file_of};

use hp_num::{NoMemory, put_bytes};
use hp_outside::{MemStore, Store};
use std::process::Abort;

/// The name opens.
pub(crate) fn opens<S: Store>(rt: &impl Abort, store: &mut S, name: &str)
    requires { S.opens store.old < 2 ^ 64 - 1 }
    ensures opens { S.opens store.new ≡ S.opens store.old + 1 }
    ensures current { IsTrue (S.current store.new) }
{
    assert_eq!(rt; store.open(name), Ok(()));
}

/// Appends what one read gives, with a bar behind it.
fn put_read<S: Store>(out: &mut Vec<u8>, store: &mut S, room: usize) -> Result<(), NoMemory>
    requires { IsTrue (S.current store.old) }
    ensures current { IsTrue (S.current store.new) }
    ensures opens { S.opens store.new ≡ S.opens store.old }
{
    let mut buf = [0u8; 5];
    match store.read(&mut buf[..room.max(1).min(5)]) {
        Ok(count) => put_bytes(out, &buf[..count])?,
        Err(_) => put_bytes(out, b"failed")?,
    }
    put_bytes(out, b"|")
}

/// Appends what reads into rooms of these lengths give.
fn put_reads<S: Store>(out: &mut Vec<u8>, store: &mut S, rooms: &[usize]) -> Result<(), NoMemory>
    requires { IsTrue (S.current store.old) }
    ensures opens { S.opens store.new ≡ S.opens store.old }
{
    'reads: for room in rooms {
        put_read(out, store, *room)?;
    }
    Ok(())
}

/// Opens a name, and appends what reads give, or why it doesn't open.
fn put_file<S: Store>(
    out: &mut Vec<u8>,
    store: &mut S,
    name: &str,
    rooms: &[usize],
) -> Result<(), NoMemory>
    requires { S.opens store.old < 2 ^ 64 - 1 }
    ensures opens { S.opens store.new ≡ S.opens store.old + 1 }
{
    match store.open(name) {
        Ok(()) => put_reads(out, store, rooms),
        Err(fault) => put_bytes(out, fault.text().as_bytes()),
    }
}

/// Appends what a store gives whose first two calls and fourth call fail: only an open of a name that is held can.
fn put_failing(out: &mut Vec<u8>, store: &mut MemStore) -> Result<(), NoMemory>
    requires opens { store.old.store.opens ≡ 0 }
    requires none { (name : List ℕ) → file_of store.old.store.folder name ≡ None }
{
    store.add("a", b"abcdefg")?;
    store.fail_at(1)?;
    store.fail_at(2)?;
    store.fail_at(4)?;
    put_file(out, store, "b", &[])?;
    put_bytes(out, b"|")?;
    put_file(out, store, "a", &[])?;
    put_bytes(out, b"|")?;
    put_file(out, store, "a", &[5, 5, 2, 5, 5])
}

#[test]
fn mem_store_reads_pieces(rt: HostRuntime) {
    let mut store = MemStore::new(rt.alloc(), 3);
    let mut out = Vec::new(rt.alloc());
    put_failing(&mut out, &mut store).expect(&rt, "memory");
    drop(store);
    let want = b"no such file|cannot open|failed|abc|de|fg||";
    assert_eq!(rt; out.as_slice(), want.as_slice());
}
