//! The system's files and standard input as a store. It tells nothing of what they hold, and hands
//! the caller's buffer straight to the system's read.
ghost use Rattle.std.specs.Prelude.{◌≡◌, ◌+◌, ◌≤◌, ◌↔◌, None, false, is_some, length, IfOk};
ghost use Rattle.std.specs.IoError.{error_kind};

use crate::store::{Failed, OpenFault, Store};
use std::io::{ErrorKind, Read};
use std::rt::Files;
use std::{fs, io};

/// The files of the system by their paths; the name `-` is standard input.
///
/// Its count of faults rises at each error, at `Absent` too.
pub struct FsStore<'r, R: Files + Input> {
    rt: &'r R,
    current: Option<Source<R>>,
    opens: u64,
    faults: u64,
}

/// What a file is read from.
enum Source<R: Files + Input> {
    File(R::File),
    Input(R::Reader),
}

impl<R: Files + Input> Drop for Source<R> {
    fn drop(self) {
        match self {
            Source::File(_) => {}
            Source::Input(_) => {}
        }
    }
}

impl<'r, R: Files + Input> Drop for FsStore<'r, R> {
    fn drop(self) {
        let FsStore {
            rt: _,
            current: _,
            opens: _,
            faults: _,
        } = self;
    }
}

impl<'r, R: Files + Input> FsStore<'r, R> {
    /// A store without a current file.
    pub fn new(rt: &'r R) -> FsStore<'r, R>
        ensures current { ⟦<FsStore<'r, R> as Store>⟧.current result ≡ false }
        ensures opens { ⟦<FsStore<'r, R> as Store>⟧.opens result ≡ 0 }
        ensures faults { ⟦<FsStore<'r, R> as Store>⟧.faults result ≡ 0 }
    {
        FsStore {
            rt,
            current: None,
            opens: 0,
            faults: 0,
        }
    }
}

impl<'r, R: Files + Input> Store for FsStore<'r, R> {
    ghost files = { λ _. None };

    ghost current = { λ s. is_some s.current };

    ghost left = { λ _. None };

    ghost opens = { λ s. s.opens };

    ghost faults = { λ s. s.faults };

    ghost tells_left = { λ s told current. told };

    fn open(&mut self, name: &str) -> Result<(), OpenFault> {
        self.opens += 1;
        self.current = None;
        if name == "-" {
            self.current = Some(Source::Input(self.rt.reader()));
            return Ok(());
        }
        match fs::open(self.rt, name) {
            Ok(file) => {
                self.current = Some(Source::File(file));
                Ok(())
            }
            Err(error) => {
                self.faults = self.faults.saturating_add(1);
                Err(open_fault(&error))
            }
        }
    }

    fn read(&mut self, buf: &mut [u8]) -> Result<usize, Failed> {
        let answer = match &mut self.current {
            Some(Source::File(file)) => read_once(file, buf),
            Some(Source::Input(reader)) => read_once(reader, buf),
            None => unreachable!(),
        };
        if answer.is_err() {
            self.faults = self.faults.saturating_add(1);
        }
        answer
    }
}

/// Why the system did not open a file: a file that is there is never called absent.
fn open_fault(error: &io::Error) -> OpenFault
    ensures { (result ≡ OpenFault.Absent) ↔ (error_kind error.now ≡ ErrorKind.NotFound) }
{
    match error.kind() {
        ErrorKind::NotFound => OpenFault::Absent,
        _ => OpenFault::Failed,
    }
}

/// One read, again where a signal interrupted it.
fn read_once<T: Read>(reader: &mut T, buf: &mut [u8]) -> Result<usize, Failed>
    ensures { IfOk result (λ count. count ≤ length buf.old) }
{
    for _ in 0..u64::MAX {
        match reader.read(buf) {
            Ok(count) => return Ok(count),
            Err(error) => {
                if error.kind() != ErrorKind::Interrupted {
                    return Err(Failed);
                }
            }
        }
    }
    Err(Failed)
}
