//! A store in memory that never fails: an open of a name that it holds and a read always succeed.
ghost use Rattle.std.specs.Prelude.{◌≡◌, ◌≢◌, ◌+◌, ◌-◌, ◌^◌, ◌<◌, ◌↔◌, ℕ, List, [], None, Some, Option, IsSome, IfOk, OnOk, OnErr, MatchOption, is_some, false, length, take};
ghost use Rattle.hp_outside.specs.Folder.{KeepsOthers, file_of};
ghost use Rattle.hp_outside.specs.Taken.{IsEndAt, IsReadInto};
ghost use Rattle.hp_outside.specs.SureStoreState.{new_store, with_file, after_open, read_count, after_read};
ghost use Rattle.hp_outside.specs.OpenAnswer.{TellsAbsent, open_answer};
ghost use Rattle.hp_outside.specs.HeldFiles.{HasNoFile, IsFileNumber, folder_of};

use crate::store::{Failed, OpenFault, Store};
use hp_num::NoMemory;
use std::alloc::Global;
use std::marker::Model;

/// A file of a store in memory.
#[derive(Drop)]
pub(crate) struct HeldFile {
    name: Vec<u8>,
    bytes: Vec<u8>,
}

/// The current file by its number, and how many of its bytes were read.
#[derive(Clone, Copy)]
pub(crate) struct Place {
    file: usize,
    at: usize,
}

/// A store in memory that tells its files and never fails.
#[derive(Drop)]
pub struct SureStore {
    files: Vec<HeldFile>,
    piece: usize,
    opens: u64,
    place: Option<Place>,
}

impl Model for SureStore {
    ghost use Rattle.std.specs.Prelude.{◌<◌};
    ghost use Rattle.std.specs.Option.{ForSome};
    ghost use Rattle.hp_outside.specs.SureStoreState.{SureStoreState, sure_store_code};

    ghost Value = { SureStoreState };

    ghost coded = { sure_store_code };

    ghost use Rattle.hp_outside.specs.HeldFiles.{folder_of, left_at, IsWithin};

    ghost view = { λ s. record {
      folder = folder_of s.files.items;
      piece = s.piece;
      opens = s.opens;
      left = left_at s.files.items s.place;
    } };

    ghost invariant = { λ s. (0 < s.piece) × ForSome s.place (IsWithin s.files.items) };
}

impl SureStore {
    /// A store without files whose reads give at most `piece` bytes each.
    pub fn new(alloc: Global, piece: usize) -> SureStore
        requires { 0 < piece }
        ensures new { result ≡ new_store piece }
        ensures none_held { (name : List ℕ) → file_of result.folder name ≡ None }
    {
        SureStore {
            files: Vec::new(alloc),
            piece,
            opens: 0,
            place: None,
        }
    }

    /// Adds a file under a name that is not held.
    pub fn add(&mut self, name: &str, bytes: &[u8]) -> Result<(), NoMemory>
        requires { file_of self.old.folder name.now ≡ None }
        ensures added { OnOk result (self.new ≡ with_file self.old name.now bytes.now) }
        ensures held { OnOk result (file_of self.new.folder name.now ≡ Some bytes.now) }
        ensures others { OnOk result (KeepsOthers self.old.folder self.new.folder name.now) }
        ensures kept { OnErr result (self.new ≡ self.old) }
    {
        let alloc = *self.files.allocator();
        let name = Vec::from_slice(alloc, name.as_bytes())?;
        let bytes = Vec::from_slice(alloc, bytes)?;
        let file = HeldFile { name, bytes };
        self.files.push(file)?;
        Ok(())
    }

    /// Leaves the store without a current file.
    pub(crate) fn close(&mut self)
        ensures { self.new ≡ record self.old { left = None } }
    {
        self.place = None;
    }
}

fn file_number(files: &Vec<HeldFile>, name: &[u8]) -> Option<usize>
    ensures { MatchOption result (HasNoFile files.now.items name.now)
        (IsFileNumber files.now.items name.now) }
{
    for (number, file) in files.iter().enumerate() {
        if file.name.as_slice() == name {
            return Some(number);
        }
    }
    None
}

impl Store for SureStore {
    ghost files = { λ s. Some s.folder };

    ghost current = { λ s. is_some s.left };

    ghost left = { λ s. s.left };

    ghost opens = { λ s. s.opens };

    ghost faults = { λ _. 0 };

    ghost tells_left = { λ s told current. current };

    /// Never answers `Failed`.
    fn open(&mut self, name: &str) -> Result<(), OpenFault>
        requires { self.old.opens < 2 ^ 64 - 1 }
        ensures absent { TellsAbsent self.old.folder name.now result }
        ensures answer { result ≡ open_answer (file_of self.old.folder name.now) false }
        ensures after { self.new ≡ after_open self.old (file_of self.old.folder name.now) }
    {
        self.opens += 1;
        match file_number(&self.files, name.as_bytes()) {
            Some(file) => {
                self.place = Some(Place { file, at: 0 });
                Ok(())
            }
            None => {
                self.place = None;
                Err(OpenFault::Absent)
            }
        }
    }

    /// Gives the next bytes, as many as `piece`, the buffer and the file allow. Never fails.
    fn read(&mut self, buf: &mut [u8]) -> Result<usize, Failed>
        requires current { IsSome self.old.left }
        requires room { 0 < length buf.old }
        ensures taken { IfOk result (IsReadInto buf.new self.old.left self.new.left) }
        ensures end { IfOk result (IsEndAt self.old.left) }
        ensures answer { result ≡ Ok (read_count self.old (length buf.old)) }
        ensures after { self.new ≡ after_read self.old (length buf.old) }
    {
        let Some(place) = self.place else {
            unreachable!();
        };
        let rest = &self.files[place.file].bytes.as_slice()[place.at..];
        let count = self.piece.min(buf.len()).min(rest.len());
        buf[..count].copy_from_slice(&rest[..count]);
        self.place = Some(Place {
            file: place.file,
            at: place.at + count,
        });
        Ok(count)
    }
}
