//! Names by the numbers of their first appearance.

use hp_num::{NoMemory, put_bytes, put_dec};
use intern_tables::Names;

/// Names in the order in which they come.
static CAME: [&[u8]; 6] = [b"main", b"a.c", b"main", b"", b"a.c\xff", b"a.c"];

/// Names that are looked for.
static ASKED: [&[u8]; 3] = [b"a.c", b"", b"mai"];

/// Appends a number, with a blank behind it.
fn put_number(out: &mut Vec<u8>, n: usize) -> Result<(), NoMemory> {
    put_dec(out, n as u64)?;
    put_bytes(out, b" ")
}

/// Appends the numbers that the names get which come.
fn put_came(out: &mut Vec<u8>, names: &mut Names) -> Result<(), NoMemory> {
    for name in &CAME {
        put_number(out, names.intern(name)?)?;
    }
    Ok(())
}

/// Appends the numbers of the names that are looked for, 0 for none.
fn put_asked(out: &mut Vec<u8>, names: &Names) -> Result<(), NoMemory> {
    for name in &ASKED {
        put_number(out, names.find(name).unwrap_or(0))?;
    }
    Ok(())
}

/// Appends the names of some numbers, each with a bar behind it.
fn put_named(out: &mut Vec<u8>, names: &Names) -> Result<(), NoMemory> {
    for n in [0, 3, 4, 5] {
        put_bytes(out, names.name(n).unwrap_or(b"none"))?;
        put_bytes(out, b"|")?;
    }
    Ok(())
}

/// Whether a name has this number, by both ways of asking.
fn is_numbered(names: &Names, name: &[u8], n: usize) -> bool {
    names.find(name) == Some(n) && names.name(n) == Some(name)
}

/// The first of a thousand names that doesn't get or keep its number, behind those that came: else 1,000.
fn first_lost(names: &mut Names) -> Result<usize, NoMemory> {
    for i in 0..1000usize {
        let name = [(i % 256) as u8, (i / 256) as u8];
        if names.intern(&name)? != i + 5 || !is_numbered(names, &name, i + 5) {
            return Ok(i);
        }
    }
    Ok(1000)
}

/// Twice a thousand names more, enough for the table to grow several times: appends how many keep their numbers, and how many
/// names there are then.
fn put_thousand(out: &mut Vec<u8>, names: &mut Names) -> Result<(), NoMemory> {
    put_number(out, first_lost(names)?)?;
    put_number(out, first_lost(names)?)?;
    put_number(out, names.len())
}

/// Appends what is asked of the names that come, and how many there are before a thousand more come.
fn put_all(out: &mut Vec<u8>, names: &mut Names) -> Result<(), NoMemory> {
    put_came(out, names)?;
    put_asked(out, names)?;
    put_number(out, names.len())?;
    put_named(out, names)?;
    put_thousand(out, names)
}

#[test]
fn names_by_first_appearance(rt: HostRuntime) {
    let mut names = Names::new(rt.alloc());
    let mut out = Vec::new(rt.alloc());
    put_all(&mut out, &mut names).expect(&rt, "memory");
    let want = b"1 2 1 3 4 2 2 3 0 4 none||a.c\xff|none|1000 1000 1004 ";
    assert_eq!(rt; out.as_slice(), want.as_slice());
}
