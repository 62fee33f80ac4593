//! A system of which every call fails, and what its store tells of that. What calls in a row answer is one text.

use crate::tests::files::put_named;
use hp_num::{NoMemory, put_bytes};
use hp_outside::{FsStore, Limits};
use std::alloc::{Allocator, Global};
use std::fs::{File, Metadata, OpenOptions};
use std::io::{self, BufRead, ErrorKind, Lines, Read};
use std::process::Abort;
use std::rt::Files;

/// A system, or its standard input, of which each call fails with an error of this kind.
#[derive(Clone, Copy)]
struct Failing {
    kind: ErrorKind,
}

impl Read for Failing {
    fn read(&mut self, _buf: &mut [u8]) -> io::Result<usize> {
        Err(io::Error::from(self.kind))
    }
}

impl BufRead for Failing {
    fn fill_buf(&mut self) -> io::Result<&[u8]> {
        Err(io::Error::from(self.kind))
    }

    fn consume(&mut self, _amount: usize) {}
}

impl Input for Failing {
    type Reader = Failing;

    fn read_line<A: Allocator + Clone>(&self, _buf: &mut String<A>) -> io::Result<usize> {
        Err(io::Error::from(self.kind))
    }

    fn lines<A: Allocator>(&self, alloc: A) -> Lines<Failing, A> {
        self.reader().lines(alloc)
    }

    fn reader(&self) -> Failing {
        *self
    }
}

impl Files for Failing {
    type File = File;

    type Dir = Failing;

    fn open_file(&self, _how: &OpenOptions, _path: &str) -> io::Result<File> {
        Err(io::Error::from(self.kind))
    }

    fn open_dir(&self, _path: &str) -> io::Result<Failing> {
        Err(io::Error::from(self.kind))
    }

    fn metadata(&self, _path: &str) -> io::Result<Metadata> {
        Err(io::Error::from(self.kind))
    }

    fn symlink_metadata(&self, _path: &str) -> io::Result<Metadata> {
        Err(io::Error::from(self.kind))
    }

    fn copy(&self, _from: &str, _to: &str) -> io::Result<u64> {
        Err(io::Error::from(self.kind))
    }

    fn rename(&self, _from: &str, _to: &str) -> io::Result<()> {
        Err(io::Error::from(self.kind))
    }

    fn remove_file(&self, _path: &str) -> io::Result<()> {
        Err(io::Error::from(self.kind))
    }

    fn create_dir(&self, _path: &str) -> io::Result<()> {
        Err(io::Error::from(self.kind))
    }

    fn remove_dir(&self, _path: &str) -> io::Result<()> {
        Err(io::Error::from(self.kind))
    }

    fn remove_dir_all<B: Allocator>(&self, _alloc: B, _path: &str) -> io::Result<()> {
        Err(io::Error::from(self.kind))
    }
}

/// How each call of a system fails, and what its store tells of a file and of standard input.
static KINDS: [(ErrorKind, &str); 4] = [
    (ErrorKind::NotFound, "no such file, cannot read"),
    (ErrorKind::PermissionDenied, "cannot open, cannot read"),
    (ErrorKind::FilesystemLoop, "cannot open, cannot read"),
    (ErrorKind::UnexpectedEof, "cannot open, cannot read"),
];

/// Appends what the store of a failing system tells of a file, and of standard input.
fn put_failing(out: &mut Vec<u8>, alloc: Global, system: &Failing) -> Result<(), NoMemory> {
    let limits = Limits::standard();
    let mut store = FsStore::new(system);
    put_named(out, alloc, &limits, &mut store, "a")?;
    put_bytes(out, b", ")?;
    put_named(out, alloc, &limits, &mut store, "-")
}

/// What the store of a system that fails so tells is what is wanted.
fn tells(rt: &impl Abort, alloc: Global, kind: ErrorKind, want: &str) {
    let mut out = Vec::new(alloc);
    put_failing(&mut out, alloc, &Failing { kind }).expect(rt, "memory");
    assert_eq!(rt; out.as_slice(), want.as_bytes());
}

#[test]
fn fs_store_tells_failures(rt: HostRuntime) {
    for (kind, want) in &KINDS {
        tells(&rt, rt.alloc(), *kind, want);
    }
}
